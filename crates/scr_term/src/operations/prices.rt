//! Prices of operations: estimates of their bytes, looked up when operations are compared.
//! `rendering` gives the exact numbers.
ghost use Rattle.std.specs.Prelude.{◌≡◌, ◌<◌, IfSome};

use crate::operations::capability::Capability;
use crate::operations::ladders::{
    ADDRESSED_COLUMNS, ADDRESSED_ROWS, ByDigits, CHARS_DELETED, CHARS_INSERTED, COLUMNS, Counted,
    DOWNS, ERASURES, LEFTS, LINES, LINES_DELETED, LINES_INSERTED, REPEATS, RIGHTS, SCROLLS_DOWN,
    SCROLLS_UP, UPS,
};
use crate::{Op, Profile};
use bitflags::Flags;
use scr_cells::Attrs;
use ti_caps::Entry;

/// The price of an operation that the terminal does not have: more than all others together.
pub const FAR: u32 = 1_000_000;

/// The prices of a terminal's operations: estimates of their bytes, made when the entry is
/// admitted.
///
/// A text without a number is counted. A text with a number is counted for one number of each
/// length, one digit to three; its price for another number is that of the one with as many digits.
#[derive(Clone, Copy)]
pub struct Prices {
    home: u32,
    carriage_return: u32,
    clear: u32,
    erase_line: u32,
    erase_below: u32,
    erase_chars: ByDigits,
    insert_lines: Counted,
    delete_lines: Counted,
    insert_chars: ByDigits,
    delete_chars: Counted,
    scroll_up: Counted,
    scroll_down: Counted,
    repeat: ByDigits,
    column: ByDigits,
    line: ByDigits,
    up: Counted,
    down: Counted,
    left: Counted,
    right: Counted,
    // `cup`: the price of the first place, and what the row and the column add to it.
    address: u32,
    address_row: ByDigits,
    address_column: ByDigits,
    reset: u32,
    exit_attributes: u32,
    fore: u32,
    back: u32,
    // By the index of the attribute in `Attrs::EACH`.
    enter: [u32; 7],
    // `sgr`: the price without attributes, and what each attribute adds to it.
    set: u32,
    set_more: [u32; 7],
}

impl Prices {
    /// About how many bytes an operation has; `FAR` if the terminal does not have its text.
    ///
    /// Also `FAR` for `Clear`, an erasure, or a motion other than `Move`, if its text contains a
    /// line feed: the terminal's driver could add a carriage return.
    #[inline(always)]
    pub fn of(&self, op: Op) -> u32 {
        match op {
            Op::Home => self.home,
            Op::Move(row, column) => self.of_address(row, column),
            Op::Column(column) => self.column.with_next(column),
            Op::Line(row) => self.line.with_next(row),
            Op::Up(count) => self.up.by(count),
            Op::Down(count) => self.down.by(count),
            Op::Left(count) => self.left.by(count),
            Op::Right(count) => self.right.by(count),
            Op::UpBy(count) => self.up.more.with(count),
            Op::DownBy(count) => self.down.more.with(count),
            Op::LeftBy(count) => self.left.more.with(count),
            Op::RightBy(count) => self.right.more.with(count),
            Op::Return => self.carriage_return,
            Op::Clear => self.clear,
            Op::EraseLine => self.erase_line,
            Op::EraseBelow => self.erase_below,
            Op::EraseChars(count) => self.erase_chars.with(count),
            Op::InsertLines(count) => self.insert_lines.by(count),
            Op::DeleteLines(count) => self.delete_lines.by(count),
            Op::InsertChars(count) => self.insert_chars.with(count),
            Op::DeleteChars(count) => self.delete_chars.by(count),
            Op::ScrollUp(count) => self.scroll_up.by(count),
            Op::ScrollDown(count) => self.scroll_down.by(count),
            Op::Reset => self.reset,
            Op::ExitAttributes => self.exit_attributes,
            Op::Enter(attribute) => self.enters(attribute),
            Op::Set(attributes) => sum(self.set, &self.set_more, attributes),
            Op::Fore(_) => self.fore,
            Op::Back(_) => self.back,
            Op::Put(_) => 1,
            Op::Write(character) => character.len_utf8() as u32,
            Op::Repeat(_, count) => self.repeat.with(count),
        }
    }

    /// The price of turning on these attributes, one by one.
    pub fn enters(&self, attributes: Attrs) -> u32 {
        sum(0, &self.enter, attributes)
    }

    /// The price of a motion within a row: the least of `Right(2)`, `Column(9)` and `Move(9, 9)`.
    pub fn easy_motion(&self) -> u32 {
        self.of(Op::Right(2))
            .min(self.of(Op::Column(9)))
            .min(self.of(Op::Move(9, 9)))
    }

    // The price of `cup` for a row and a column.
    #[inline(always)]
    fn of_address(&self, row: u32, column: u32) -> u32 {
        self.address
            .saturating_add(self.address_row.with_next(row))
            .saturating_add(self.address_column.with_next(column))
    }

    /// The prices of a terminal without operations.
    pub(crate) fn none() -> Prices {
        let number = ByDigits::far();
        let count = Counted {
            one: FAR,
            more: number,
        };
        Prices {
            home: FAR,
            carriage_return: FAR,
            clear: FAR,
            erase_line: FAR,
            erase_below: FAR,
            erase_chars: number,
            insert_lines: count,
            delete_lines: count,
            insert_chars: number,
            delete_chars: count,
            scroll_up: count,
            scroll_down: count,
            repeat: number,
            column: number,
            line: number,
            up: count,
            down: count,
            left: count,
            right: count,
            address: FAR,
            address_row: number,
            address_column: number,
            reset: FAR,
            exit_attributes: FAR,
            fore: FAR,
            back: FAR,
            enter: [FAR; 7],
            set: FAR,
            set_more: [FAR; 7],
        }
    }
}

// A price plus what each of these attributes adds.
#[inline(always)]
fn sum(first: u32, prices: &[u32; 7], attributes: Attrs) -> u32 {
    if attributes.is_empty() {
        return first;
    }
    match number_of(attributes) {
        Some(number) => first.saturating_add(prices[number]).min(FAR),
        None => sum_of_several(first, prices, attributes),
    }
}

// The index of an attribute in `Attrs::EACH`; `None` for a set that is not a single attribute.
#[inline(always)]
fn number_of(attribute: Attrs) -> Option<usize>
    ensures { IfSome result (λ number. number < 7) }
{
    match attribute {
        Attrs::STANDOUT => Some(0),
        Attrs::UNDERLINE => Some(1),
        Attrs::REVERSE => Some(2),
        Attrs::BLINK => Some(3),
        Attrs::DIM => Some(4),
        Attrs::BOLD => Some(5),
        Attrs::INVIS => Some(6),
        _ => None,
    }
}

// A price plus what each of several attributes adds.
#[inline(never)]
fn sum_of_several(first: u32, prices: &[u32; 7], attributes: Attrs) -> u32 {
    let mut sum = first;
    for index in 0..7 {
        if attributes.contains(Attrs::EACH[index]) {
            sum = sum.saturating_add(prices[index]);
        }
    }
    sum.min(FAR)
}

impl Profile {
    /// Estimates of the bytes of each operation, to compare operations by.
    pub fn prices(&self) -> &Prices {
        &self.prices
    }

    /// The same profile, with the prices of its entry's texts.
    pub(crate) fn priced(self, entry: &Entry) -> Profile
        ensures { result ≡ self }
    {
        let prices = self.prices_by(entry);
        let mut profile = self;
        profile.prices = prices;
        profile
    }

    // The prices of the entry's texts.
    fn prices_by(&self, entry: &Entry) -> Prices {
        let address = self.price(Op::Move(0, 0));
        let set = self.price(Op::Set(Attrs::empty()));
        Prices {
            home: self.price_of(entry, Capability::Home, Op::Home),
            carriage_return: self.price_of(entry, Capability::Cr, Op::Return),
            clear: self.price_of(entry, Capability::Clear, Op::Clear),
            erase_line: self.price_of(entry, Capability::El, Op::EraseLine),
            erase_below: self.price_of(entry, Capability::Ed, Op::EraseBelow),
            erase_chars: self.prices_of(entry, Capability::Ech, ERASURES),
            insert_lines: self.counted(LINES_INSERTED),
            delete_lines: self.counted(LINES_DELETED),
            insert_chars: self.ladder(CHARS_INSERTED),
            delete_chars: self.counted(CHARS_DELETED),
            scroll_up: self.counted(SCROLLS_UP),
            scroll_down: self.counted(SCROLLS_DOWN),
            repeat: self.ladder(REPEATS),
            column: self.prices_of(entry, Capability::Hpa, COLUMNS),
            line: self.prices_of(entry, Capability::Vpa, LINES),
            up: self.motion_prices(entry, Capability::Cuu1, Capability::Cuu, UPS),
            down: self.motion_prices(entry, Capability::Cud1, Capability::Cud, DOWNS),
            left: self.motion_prices(entry, Capability::Cub1, Capability::Cub, LEFTS),
            right: self.motion_prices(entry, Capability::Cuf1, Capability::Cuf, RIGHTS),
            address,
            address_row: self.prices_above(address, ADDRESSED_ROWS),
            address_column: self.prices_above(address, ADDRESSED_COLUMNS),
            reset: self.price(Op::Reset),
            exit_attributes: self.price_of_exit(),
            fore: self.price(Op::Fore(0)),
            back: self.price(Op::Back(0)),
            enter: self.enter_prices(),
            set,
            set_more: self.set_prices(set),
        }
    }

    // The price of turning attributes off alone. It is there only where the terminal has a spare text:
    // what other terminals are sent does not change.
    fn price_of_exit(&self) -> u32 {
        for spare in Capability::SPARE {
            if self.is_there(spare) {
                return self.price(Op::ExitAttributes);
            }
        }
        FAR
    }

    // The bytes of an operation, at most `FAR`.
    fn price(&self, op: Op) -> u32 {
        match self.cost(op) {
            Some(cost) => u32::try_from(cost).unwrap_or(FAR).min(FAR),
            None => FAR,
        }
    }

    // The same, but `FAR` if the capability's text contains a line feed.
    fn price_of(&self, entry: &Entry, capability: Capability, op: Op) -> u32 {
        if has_line_feed(entry, capability) {
            FAR
        } else {
            self.price(op)
        }
    }

    // The prices of operations with numbers of one, two and three digits. If the screen is too
    // small for one of them, it gets the price of the one before.
    fn ladder(&self, ops: [Op; 3]) -> ByDigits {
        let one = self.price(ops[0]);
        let two = self.price(ops[1]);
        let two = if two < FAR { two } else { one };
        let three = self.price(ops[2]);
        ByDigits {
            one,
            two,
            three: if three < FAR { three } else { two },
        }
    }

    // The same, but `FAR` if the capability's text contains a line feed.
    fn prices_of(&self, entry: &Entry, capability: Capability, ops: [Op; 3]) -> ByDigits {
        if has_line_feed(entry, capability) {
            ByDigits::far()
        } else {
            self.ladder(ops)
        }
    }

    // By how much these exceed another price.
    fn prices_above(&self, price: u32, ops: [Op; 3]) -> ByDigits {
        let ladder = self.ladder(ops);
        ByDigits {
            one: ladder.one.saturating_sub(price),
            two: ladder.two.saturating_sub(price),
            three: ladder.three.saturating_sub(price),
        }
    }

    // The prices of a motion that has one text for one place and one with a count.
    fn motion_prices(
        &self,
        entry: &Entry,
        one: Capability,
        many: Capability,
        ops: [Op; 4],
    ) -> Counted {
        let [by_one, two, ten, hundred] = ops;
        let sent = if self.is_there(one) { one } else { many };
        Counted {
            one: self.price_of(entry, sent, by_one),
            more: self.prices_of(entry, many, [two, ten, hundred]),
        }
    }

    // The prices of an operation that has one text for one place or line and one with a count.
    fn counted(&self, ops: [Op; 4]) -> Counted {
        let [by_one, two, ten, hundred] = ops;
        Counted {
            one: self.price(by_one),
            more: self.ladder([two, ten, hundred]),
        }
    }

    // The prices of turning on each attribute.
    fn enter_prices(&self) -> [u32; 7] {
        let mut prices = [FAR; 7];
        for index in 0..7 {
            prices[index] = self.price(Op::Enter(Attrs::EACH[index]));
        }
        prices
    }

    // What each attribute adds to the price of `sgr` without attributes.
    fn set_prices(&self, set: u32) -> [u32; 7] {
        let mut prices = [FAR; 7];
        for index in 0..7 {
            let price = self.price(Op::Set(Attrs::EACH[index]));
            prices[index] = if price < FAR {
                price.saturating_sub(set)
            } else {
                FAR
            };
        }
        prices
    }
}

// Whether the text of a capability contains a line feed.
fn has_line_feed(entry: &Entry, capability: Capability) -> bool {
    match entry.text(capability.slot()) {
        Some(text) => text.contains(&b'\n'),
        None => false,
    }
}
