// A run, as the functions of a fit are lent it: its stars, and beside them its terms.

use solver::Settings;
use std::marker::Model;

// Pier codes and sheets, one for each star, the indices of the stars that count, and the settings: what a column is made of beside its term.
#[derive(Drop)]
pub struct SightInput<'a> {
    pub pier: &'a [u8],
    pub sheets: &'a [f64],
    pub used: &'a [u16],
    pub settings: Settings,
}

impl<'a> Model for SightInput<'a> {
    ghost use Rattle.design.specs.Sights.{SightInputs, sight_inputs, SeenIn};

    ghost Value = { SightInputs };

    ghost view = { λ l. sight_inputs l.pier.now l.sheets.now l.used.now l.settings };

    ghost invariant = { λ l. SeenIn (sight_inputs l.pier.now l.sheets.now l.used.now l.settings) };
}

// m names in slots of 16 bytes, the indices of the free terms among them, and raw differences, one for each star; m beside them,
// as in the definition `RunInputs`.
#[derive(Drop)]
pub struct RunInput<'a> {
    pub m: usize,
    pub names: &'a [u8],
    pub free: &'a [u16],
    pub dh: &'a [f64],
    pub dd: &'a [f64],
    pub sights: SightInput<'a>,
}

impl<'a> Model for RunInput<'a> {
    ghost use Rattle.design.specs.Design.{RunInputs};
    ghost use Rattle.design.specs.Sights.{run_seen};
    ghost use Rattle.design.specs.Counted.{Counted};

    ghost Value = { RunInputs };

    ghost view = { λ l. run_seen l.m l.names.now l.free.now l.dh.now l.dd.now l.sights };

    ghost invariant = { λ l. Counted (run_seen l.m l.names.now l.free.now l.dh.now l.dd.now l.sights) };
}
