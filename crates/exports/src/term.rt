// What a name is read as, in numbers, as a C struct.

ghost use Rattle.std.specs.Prelude.{◌≡◌, ◌≤◌};
ghost use Rattle.terms.specs.Names.{term_or_blank};
ghost use Rattle.exports.specs.Term.{result_code, function_code, coordinate_code, component_codes, components_of, read_answer, no_term, term_answer};

use harmonic::{Coordinate, HarmonicComponent, ResultType, TrigFunc};
use limits::SLOT;
use refusal::Refusal;
use terms::{Term, TermKind};

// 0 and a term in numbers, or the number of the question that refused the name, zeros and false.
#[repr(C)]
#[derive(Clone, Copy)]
pub struct TermAnswer {
    pub refusal: u8,
    // from 0 in the order of equatorial::EquatorialTerm; 15 for a harmonic
    pub kind: u8,
    // TXN's own
    pub number: u8,
    // a harmonic's, from 0 in the order of harmonic::ResultType
    pub result: u8,
    // how many components it has, with zeros behind them
    pub count: u8,
    pub name: [u8; SLOT],
    pub functions: [u8; 7],
    pub coordinates: [u8; 7],
    pub frequencies: [u8; 7],
    pub pier_sensitive: bool,
}

#[derive(Clone, Copy)]
pub struct ComponentCodes {
    pub functions: [u8; 7],
    pub coordinates: [u8; 7],
    pub frequencies: [u8; 7],
}

// The numbers by which C has a result type, a function and a coordinate: those of the variants, which only `as` gives.
fn result_code(t: ResultType) -> u8
    ensures { result ≡ result_code t }
{
    t as u8
}

fn function_code(f: TrigFunc) -> u8
    ensures { result ≡ function_code f }
{
    f as u8
}

fn coordinate_code(c: Coordinate) -> u8
    ensures { result ≡ coordinate_code c }
{
    c as u8
}

// One pass over the components: with `map` for each of the three arrays the call around it took 126 instructions for 50.
fn component_codes(list: [HarmonicComponent; 7]) -> ComponentCodes
    ensures { result ≡ component_codes list }
{
    let mut functions = [0; 7];
    let mut coordinates = [0; 7];
    let mut frequencies = [0; 7];
    for (i, c) in list.iter().enumerate() {
        functions[i] = function_code(c.func);
        coordinates[i] = coordinate_code(c.coord);
        frequencies[i] = c.frequency;
    }
    ComponentCodes {
        functions,
        coordinates,
        frequencies,
    }
}

fn no_term(refusal: u8) -> TermAnswer
    ensures { result ≡ no_term refusal }
{
    TermAnswer {
        refusal,
        kind: 0,
        number: 0,
        result: 0,
        count: 0,
        name: [0; SLOT],
        functions: [0; 7],
        coordinates: [0; 7],
        frequencies: [0; 7],
        pier_sensitive: false,
    }
}

// The count is at most 7, so that `as` loses nothing.
fn read_answer(term: Term) -> TermAnswer
    requires { (components_of term.kind).count ≤ 7 }
    ensures { result ≡ read_answer term }
{
    let name = term.name;
    let mut answer = no_term(0);
    answer.name = name;
    answer.pier_sensitive = term.pier_sensitive;
    match term.kind {
        TermKind::Equatorial(t) => {
            answer.kind = t.code();
            answer.number = t.txn_number();
        }
        TermKind::Harmonic(h) => {
            let list = h.components.list;
            let codes = component_codes(list);
            let functions = codes.functions;
            let coordinates = codes.coordinates;
            let frequencies = codes.frequencies;
            answer.kind = 15;
            answer.result = result_code(h.result);
            answer.count = h.components.count as u8;
            answer.functions = functions;
            answer.coordinates = coordinates;
            answer.frequencies = frequencies;
        }
    }
    answer
}

// No From, since it asks for at most seven components, so that the cast of their count loses nothing.
pub fn term_answer(r: Result<Term, Refusal>) -> TermAnswer
    requires { (components_of (term_or_blank r).kind).count ≤ 7 }
    ensures { result ≡ term_answer r }
{
    match r {
        Ok(term) => read_answer(term),
        Err(why) => no_term(why.number()),
    }
}
