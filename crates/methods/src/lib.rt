// The planning methods: definitions in specs/, theorems in proofs/, and no code but the type of a
// method and the type of a width of windows. The code that writes and counts a method's steps cites
// them.
#![tactic(auto)]

use std::marker::Model;

// Windows have from 1 to this many bits.
pub const FIXED_WINDOW_BITS: usize = 6;

pub const SLIDING_WINDOW_BITS: usize = 6;

// A width of windows that is allowed: from 1 to MOST bits.
#[derive(Clone, Copy)]
pub struct WindowWidth<const MOST: usize> {
    pub bits: usize,
}

impl<const MOST: usize> Model for WindowWidth<MOST> {
    ghost use Rattle.std.specs.Prelude.{ℕ, ◌≤◌};

    ghost Value = { ℕ };

    ghost view = { λ w. w.bits };

    ghost invariant = { λ w. (1 ≤ w.bits) × (w.bits ≤ MOST) };

    ghost inverse = { λ n. record { bits = n } };
}

impl<const MOST: usize> WindowWidth<MOST> {
    ghost use Rattle.std.specs.Prelude.{◌≡◌, ◌≤◌};

    // How many bits that is.
    pub fn bits(self) -> usize
        ensures value { result ≡ self.entry }
        ensures range { (1 ≤ result) × (result ≤ MOST) }
    {
        self.bits
    }
}

// A width of method 2.
pub type FixedWidth = WindowWidth<FIXED_WINDOW_BITS>;

// A width of method 3.
pub type SlidingWidth = WindowWidth<SLIDING_WINDOW_BITS>;

// A method, with its width if it has one. Widths are plain numbers here: the list of all choices and
// the theorems over all methods are built on them.
#[derive(Clone, Copy)]
pub enum Method {
    Binary,
    FixedWindows(usize),
    SlidingWindows(usize),
    Naf,
    WideNaf(usize),
    ModifiedNaf,
}
