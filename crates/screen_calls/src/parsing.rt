//! Calls as lines: a name, and what the call is given, as scripts, checks and made-up sessions write them.
ghost use Rattle.std.specs.Prelude.{◌≡◌, IfOk, None, Some};
ghost use Rattle.std.specs.Option.{option_copied};
ghost use Rattle.screen_calls.specs.Reading.{IsRefused};
ghost use Rattle.screen_calls.specs.ShortCalls.{call_of, text_call};

use crate::call_faults::CallFault;
use crate::calls::Call;
use crate::fields::{copied, count_fault_of, cut_field, field_and_text, fields_after, number};
use crate::reasons::Reason;
use crate::short_calls::short_call;
use scr_windows::Win;
use std::alloc::Global;

/// Reads a call that a script makes: a short name, followed by a blank and what the call is given, if it is given
/// anything.
///
/// Fields are separated by one blank. A number is written in decimal digits and below 2^32; leading zeros are allowed.
/// A colour may be `-`, the terminal's default. A text, that of `put`, is everything after the blank before it, and may
/// be empty. Windows, places and pairs that do not exist are left for the calls to refuse.
///
/// Refused with the first thing that is wrong with the line, and if memory runs out.
#[tactic(auto, unfolding(crate::specs::ShortCalls::call_of))]
pub fn read_call<'a>(alloc: Global, line: &'a [u8]) -> Result<Call, CallFault<'a>>
    ensures ok { IfOk result (λ call. call_of line.now ≡ Some call) }
    ensures bad { IsRefused result → call_of line.now ≡ None }
{
    let (name, text) = cut_field(line);
    if name == b"put".as_slice() {
        return text_call(alloc, text);
    }
    let fields = fields_after(text);
    match short_call(name, fields.as_slice()) {
        Ok(call) => Ok(call),
        Err(Reason::WrongCount) => Err(CallFault::Bad(count_fault_of(text))),
        Err(reason) => Err(CallFault::Bad(reason)),
    }
}

// `put W TEXT`.
#[tactic(auto, unfolding(crate::specs::ShortCalls::text_call))]
fn text_call<'a>(alloc: Global, text: Option<&'a [u8]>) -> Result<Call, CallFault<'a>>
    ensures ok { IfOk result (λ call. text_call (option_copied text.entry) ≡ Some call) }
    ensures bad { IsRefused result → text_call (option_copied text.entry) ≡ None }
{
    let (field, added) = field_and_text(text)?;
    let window = Win(number(field)?);
    Ok(Call::AddText(window, copied(alloc, added)?))
}
