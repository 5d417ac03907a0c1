//! What is best for every constant of a row between two: the words for it, and their laws.
//!
//! A row's constant slides from one value to another, as the width of a window does. With each constant there
//! is another problem, and a best layout of it or a conflict. A stretch says what is best from one constant
//! to another: a piece, on which all values lie on lines, or a conflict with multipliers that refute the
//! required rows with each of its constants. A sweep (`IsSweep`) is a list of right stretches, each beginning
//! where the one before ends.
//!
//! The laws: between two constants with which a corner is a best end it is one too, since points mix
//! ([`mix_stands`], [`values_between`], [`costs_between`]), so its values at both are the ends of a right
//! piece ([`corner_is_piece`]). Where the required rows begin to cost, they cost from there on
//! ([`costs_beyond`]). A dual path with the constant at the slide's end is lawful with each constant beyond
//! one at which no mark that left is above 0 any more ([`path_farther`]). And a sweep leaves no constant out
//! ([`sweep_covers`], [`sweep_decides`]).
//!
//! Linear programming's words: this is parametric programming of the right-hand side. The best value is
//! piecewise linear in the constant, each piece belongs to a basis, and a constant at which one piece ends is
//! a breakpoint.
//!
//! In reading order: `specs/Fractions.antt`, `specs/Stretches.antt` (pieces, conflicts, sweeps),
//! `specs/Stops.antt` (why a slide stops), `specs/Laws.antt`, `specs/Instances.antt`; `laws` has the
//! functions.
#![tactic(auto)]

mod laws;

pub use laws::{
    between_mixes, columns_at_each, constants_are_seen_alike, corner_at_each, corner_is_piece,
    costs_between, costs_beyond, last_constant_stands, mix_stands, path_farther,
    some_are_too_large, some_bounded, some_conflicts, some_sweeps, some_turn, straight_is_wrong,
    sweep_covers, sweep_decides, values_between,
};
