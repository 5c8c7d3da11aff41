//! The bytes that paint a whole picture from scratch.
ghost use Rattle.std.specs.Prelude.{◌≡◌, true, All, IfOk};
ghost use Rattle.scr_term.specs.Operations.Texts.{all_bytes, has};
ghost use Rattle.scr_plan.specs.Scratch.{Fits, scratch_of};

use crate::painting::scratch;
use crate::scratch_laws::scratch_shows;
use scr_cells::{NoMemory, Picture};
use scr_term::{Op, Profile, blank_laws, run_laws};
use std::alloc::Global;

/// The bytes that paint a whole picture on a terminal that may show anything: those of the
/// operations of `scratch`, one after another (curs_refresh(3X)).
///
/// The picture has the profile's size. Fails only when memory runs out.
pub fn scratch_bytes(
    alloc: Global,
    profile: &Profile,
    picture: &Picture,
) -> Result<Vec<u8>, NoMemory>
    requires { Fits profile.now picture.now }
    ensures { IfOk result (λ bytes. bytes.items ≡ all_bytes profile.now (scratch_of profile.now picture.now)) }
{
    let _profile = profile.size();
    let _picture = picture.size();
    let ops = scratch(alloc, profile, picture)?;
    scratch_shows();
    run_laws();
    blank_laws();
    rendered(alloc, profile, &ops.0)
}

// The bytes of operations that the profile has, one after another.
fn rendered(alloc: Global, profile: &Profile, ops: &[Op]) -> Result<Vec<u8>, NoMemory>
    requires { All (λ op. has profile.now op ≡ true) ops.now }
    ensures { IfOk result (λ bytes. bytes.items ≡ all_bytes profile.now ops.now) }
{
    // A place has some twenty bytes in its three texts.
    let mut bytes = Vec::with_capacity(alloc, ops.len().saturating_mul(8))?;
    for op in ops {
        profile.render(*op, &mut bytes)?;
    }
    Ok(bytes)
}
