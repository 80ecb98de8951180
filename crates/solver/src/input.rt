// What a fit is lent to read.

use crate::Settings;
use std::marker::Model;

// Names in slots of 16 bytes, flags and coefficients, one for each term; raw differences, pier codes and sheets, one for each star.
// Slices side by side, with flags and codes as bytes, since C lends them so; question 5 asks whether each code is known.
#[derive(Drop)]
pub struct FitInput<'a> {
    pub names: &'a [u8],
    pub fixed: &'a [u8],
    pub coefficients: &'a [f64],
    pub dh: &'a [f64],
    pub dd: &'a [f64],
    pub pier: &'a [u8],
    pub sheets: &'a [f64],
    pub settings: Settings,
}

impl<'a> Model for FitInput<'a> {
    ghost use Rattle.solver.specs.Call.{FitInputs, inputs};

    ghost Value = { FitInputs };

    ghost view = { λ l. inputs l.names.now l.fixed.now l.coefficients.now l.dh.now l.dd.now l.pier.now l.sheets.now l.settings };
}
