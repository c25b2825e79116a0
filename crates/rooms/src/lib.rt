// Rooms made zero, up to a count: here alone rooms are cleared. `clear` stores zeros; `zero` looks first, which is quicker where a whole room
// is zero already, as it is after a reading.
#![tactic(auto)]

pub mod lending;

ghost use Rattle.std.specs.Prelude.{true, ◌≡◌, ◌≤◌, ℕ, List, length, replicate, IsTrue};
ghost use Rattle.rooms.specs.Cleared.{cleared, begun_by, cleared_begins, or_is_zero};
ghost use Rattle.std.proofs.Common.{rules};

use std::ops::BitOr;

// The numbers of a room, of whatever width, and the laws that clearing needs: a copy is the same, and what comes together to zero is zeros.
pub trait Unsigned: Copy + PartialEq + BitOr<Self, Output = Self> {
    const ZERO: Self;

    ghost ZERO: { Self };

    // The first so many of a list zero, the others as they were.
    ghost cleared: { ℕ → List Self → List Self };

    ghost cleared_law: { (n : ℕ) (l : List Self) → cleared n l ≡ begun_by ZERO n l };

    ghost can_or_law: { (a b : Self) → Self.can_bitor a b };

    ghost or_law: { (a b r : Self) → Self.bitor_gives a b r → r ≡ ZERO → (a ≡ ZERO) × (b ≡ ZERO) };

    ghost eq_law: { (a b : Self) → Self.eq a b ≡ true → a ≡ b };

    ghost clone_law: { (a b : Self) → Self.is_clone a b → b ≡ a };

    ghost infallible_law: { (a : Self) → Self.is_infallible a };
}

impl Unsigned for u8 {
    const ZERO: u8 = 0;

    ghost ZERO = { 0 };

    ghost cleared = { cleared };

    ghost cleared_law = { cleared_begins };

    ghost can_or_law = { Prim.search rules };

    ghost or_law = { or_is_zero };

    ghost eq_law = { Prim.search rules };

    ghost clone_law = { Prim.search rules };

    ghost infallible_law = { Prim.search rules };
}

impl Unsigned for u16 {
    const ZERO: u16 = 0;

    ghost ZERO = { 0 };

    ghost cleared = { cleared };

    ghost cleared_law = { cleared_begins };

    ghost can_or_law = { Prim.search rules };

    ghost or_law = { or_is_zero };

    ghost eq_law = { Prim.search rules };

    ghost clone_law = { Prim.search rules };

    ghost infallible_law = { Prim.search rules };
}

impl Unsigned for u32 {
    const ZERO: u32 = 0;

    ghost ZERO = { 0 };

    ghost cleared = { cleared };

    ghost cleared_law = { cleared_begins };

    ghost can_or_law = { Prim.search rules };

    ghost or_law = { or_is_zero };

    ghost eq_law = { Prim.search rules };

    ghost clone_law = { Prim.search rules };

    ghost infallible_law = { Prim.search rules };
}

impl Unsigned for u64 {
    const ZERO: u64 = 0;

    ghost ZERO = { 0 };

    ghost cleared = { cleared };

    ghost cleared_law = { cleared_begins };

    ghost can_or_law = { Prim.search rules };

    ghost or_law = { or_is_zero };

    ghost eq_law = { Prim.search rules };

    ghost clone_law = { Prim.search rules };

    ghost infallible_law = { Prim.search rules };
}

pub fn clear<T: Unsigned>(room: &mut [T], n: usize)
    requires { n ≤ length room.old }
    ensures { room.new ≡ T.cleared n room.old }
{
    room[..n].fill(T::ZERO);
}

// All are looked at: that is quicker than to stop at the first that is not zero.
fn are_zero<T: Unsigned>(room: &[T]) -> bool
    ensures { IsTrue result → room.now ≡ replicate (length room.now) T.ZERO }
{
    let mut any = T::ZERO;
    for x in room {
        any = any | *x;
    }
    any == T::ZERO
}

pub fn zero<T: Unsigned>(room: &mut [T], n: usize)
    requires { n ≤ length room.old }
    ensures { room.new ≡ T.cleared n room.old }
{
    if !are_zero(&room[..n]) {
        clear(room, n);
    }
}
