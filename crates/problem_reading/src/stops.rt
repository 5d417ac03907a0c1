// Why a text was not read.
use frac_core::Stop;
use thiserror::Error;

/// The first line outside the form, counted from 1.
#[derive(Clone, Copy, Debug, PartialEq, Eq, Error)]
#[error("line {0} is outside the form")]
pub struct BadLine(pub u32);

/// A line is outside the form, or memory is wanting.
pub type ReadStop = Stop<BadLine>;
