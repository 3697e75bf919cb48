//! Reports: what is answered of one line of input, with the evidence.

use coord_change::Change;
use determinacy::MatherRow;
use ext_algebra::{Algebra, Ext};
use jet_poly::Jet;
use milnor_alg::JetQuotient;
use mono_exp::Exp;
use normal_forms::{Family, ModulusLine, Pattern};
use poly_text::{Name, What};
use ring_law::Frac;
use sqlite_items::Items;

/// The germ of a line in new variables: the change of coordinates over an algebra, and the jet that
/// it makes of the germ up to the order.
///
/// The first `corank` variables are the residual ones, the others the square variables.
#[derive(Drop)]
pub struct Carried {
    pub names: Items<Name>,
    pub algebra: Algebra,
    pub order: u8,
    pub corank: u8,
    pub change: Change<Ext<Frac>>,
    pub jet: Jet<Ext<Frac>>,
}

/// A normal form with its certificate: units with their inverses, the modulus, and the rows that
/// show its determinacy and its Milnor number.
#[derive(Drop)]
pub struct Named {
    pub family: Family,
    pub carried: Carried,
    pub units: Items<(Ext<Frac>, Ext<Frac>)>,
    pub modulus: ModulusLine,
    pub milnor: u32,
    pub mather: Items<MatherRow<Ext<Frac>>>,
    pub quotient: JetQuotient<Ext<Frac>>,
}

/// A jet past the list, by the pattern that it meets.
#[derive(Drop)]
pub struct Outside {
    pub pattern: Pattern,
    pub carried: Carried,
}

/// A jet that is not decided up to its order: a functional shows that Mather's test fails.
#[derive(Drop)]
pub struct Limit {
    pub carried: Carried,
    pub at: Exp,
    pub functional: Items<(Exp, Ext<Frac>)>,
}

/// A determined jet for which no name was found.
#[derive(Drop)]
pub struct Unresolved {
    pub carried: Carried,
    pub mather: Items<MatherRow<Ext<Frac>>>,
}

/// A phase of the work on a line.
#[derive(Clone, Copy, Debug, PartialEq, Eq)]
pub enum Phase {
    Line,
    Hessian,
    Split,
    Shape,
    Kill,
    Mather,
    Finish,
    Milnor,
}

/// What is answered of a line.
#[derive(Drop)]
pub enum Answer {
    Syntax { column: u32, what: What },
    Literal { column: u32 },
    NotCritical { variable: Name },
    Range { phase: Phase },
    Unbuilt,
    Named(Named),
    Outside(Outside),
    Limit(Limit),
    Unresolved(Unresolved),
}

/// The report of a line, or of the length of a line that is too long.
#[derive(Drop)]
pub enum Report {
    Long { length: u64 },
    Line { line: Items<u8>, answer: Answer },
}
