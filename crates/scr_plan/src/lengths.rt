//! How many bytes characters have. In UTF-8 that is one to three; where the terminal has ASCII alone
//! it is one.
ghost use Rattle.std.specs.Prelude.{◌≡◌, ◌-◌, ◌<◌, ◌≤◌, encode_utf8, length};
ghost use Rattle.scr_plan.specs.Code.Joinings.{run_bytes};
ghost use Rattle.scr_plan.specs.Code.Scenes.{IsScene};

use crate::looking::cell_in;
use crate::scenes::Scene;
use scr_cells::character_laws;
use scr_term::profiles_have;

impl Scene<'_> {
    // How many bytes the characters have that are seen in a row from one column up to another.
    #[inline(always)]
    pub(crate) fn bytes_of_run(&self, row: u32, from: u32, end: u32) -> usize
        requires scene { IsScene self.now }
        requires row { row < self.now.picture.now.rows }
        requires from { from < end }
        requires end { end ≤ self.now.picture.now.columns }
        ensures { result ≡ run_bytes self.now.profile.now self.now.picture.now row from (end - from) }
    {
        profiles_have();
        character_laws();
        let _size = self.profile.size();
        let _picture = self.picture.size();
        if self.painter.charset.is_utf8() {
            return self.encoded_bytes(row, from, end);
        }
        (end - from) as usize
    }

    // The same where characters are sent in UTF-8.
    #[inline(never)]
    fn encoded_bytes(&self, row: u32, from: u32, end: u32) -> usize
        requires scene { IsScene self.now }
        requires row { row < self.now.picture.now.rows }
        requires from { from < end }
        requires end { end ≤ self.now.picture.now.columns }
        ensures { result ≡ run_bytes self.now.profile.now self.now.picture.now row from (end - from) }
    {
        profiles_have();
        character_laws();
        let _size = self.profile.size();
        let _picture = self.picture.size();
        let cells = self.picture.row(row);
        let mut bytes = 0;
        for column in from..end {
            bytes += encoded_length(self.painter.code_of(cell_in(cells, column)));
        }
        bytes
    }
}

// How many bytes a character has in UTF-8 (RFC 3629).
#[inline(always)]
pub(crate) fn encoded_length(code: u32) -> usize
    requires { code < 65536 }
    ensures value { result ≡ length (encode_utf8 code) }
    ensures few { result ≤ 3 }
{
    if code < 0x80 {
        1
    } else if code < 0x800 {
        2
    } else {
        3
    }
}
