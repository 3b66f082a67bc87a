// A TAF moved between the 2005 edition and the present one.
#![tactic(auto)]

ghost use Rattle.std.specs.Prelude.{◌≡◌};
ghost use Rattle.taf_move.specs.Move.{other, taf_moved};

use record::aerodrome::{Edition, Taf};
use taf_times::kinds::MovedTaf;
use taf_times::{move_times, refuse};

// The edition that is left.
fn other(to: Edition) -> Edition
    ensures { result ≡ other to }
{
    match to {
        Edition::Present => Edition::Of2005,
        Edition::Of2005 => Edition::Present,
    }
}

// The TAF in this edition, so many days being in the starting month. Refused are, in this order: 11 a record of this edition, 11 or 7 one that the writer
// refuses, 11 a month or a day that does not fit, 15 times that do not.
#[tactic(auto, unfolding(crate::specs::Move::taf_moved, crate::specs::Move::judge_move, taf_times::specs::Move::times_moved))]
pub fn move_taf(to: Edition, days: u32, t: Taf) -> MovedTaf
    ensures { result ≡ taf_moved to days t }
{
    match taf_write::judge::judge(other(to), t) {
        Ok(()) => move_times(to, days, t),
        Err(refusal) => refuse(refusal),
    }
}
