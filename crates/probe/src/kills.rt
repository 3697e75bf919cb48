//! Kill moves of the principal parts.

ghost use Rattle.std.specs.Prelude.{◌≡◌, ◌≢◌, ◌<◌, ◌≤◌, ℕ, true, All, IfOk, length, map, get_or};
ghost use Rattle.kill_law.specs.declared.part.Part.TheVariants as parts;
ghost use Rattle.kill_law.specs.Table.{row};
ghost use Rattle.kill_law.specs.Kill.{letters_of};
ghost use Rattle.jet_poly.specs.Jets.{IsJet, polynomial_of};
ghost use Rattle.kill_table.specs.Divisors.{HasUnits, dividing_letters, discriminant};
ghost use Rattle.rules_corank2.specs.Parts.{is_base2 as is_base2_of};
ghost use Rattle.rules_corank3.specs.Parts.{is_base3 as is_base3_of};
ghost use Rattle.probe.specs.Over.{IsOver};

use crate::changes::put_change;
use crate::scalars::Over;
use crate::words::{Stop, Words, is};
use coord_change::{Change, ChangeOf};
use ext_algebra::Ext;
use jet_poly::JetOf;
use kill_leads::{form, variables};
use kill_table::{Part, Principal, grading, kill, kill_at, letter};
use normal_forms::triple_discriminant_of;
use ring_law::{Fault, Field, Frac, Range, Ring};
use rules_corank2::extend2;
use rules_corank3::extend3;
use std::alloc::Global;

// The names of the parts.
static PARTS: [(&str, Part); 32] = [
    ("D4", Part::D4),
    ("D", Part::D),
    ("J", Part::J),
    ("X9", Part::X9),
    ("X", Part::X),
    ("Y", Part::Y),
    ("Z", Part::Z),
    ("W", Part::W),
    ("P8", Part::P8),
    ("Q", Part::Q),
    ("S", Part::S),
    ("U", Part::U),
    ("T", Part::T),
    ("E6", Part::E6),
    ("E7", Part::E7),
    ("E8", Part::E8),
    ("J10", Part::J10),
    ("E12", Part::E12),
    ("E13", Part::E13),
    ("E14", Part::E14),
    ("Z11", Part::Z11),
    ("Z12", Part::Z12),
    ("Z13", Part::Z13),
    ("W12", Part::W12),
    ("W13", Part::W13),
    ("Q10", Part::Q10),
    ("Q11", Part::Q11),
    ("Q12", Part::Q12),
    ("S11", Part::S11),
    ("S12", Part::S12),
    ("U12", Part::U12),
    ("JT", Part::JT),
];

// The part that a word names.
fn part_of(word: &[u8]) -> Result<Part, Stop> {
    for (name, part) in &PARTS {
        if is(word, name.as_bytes()) {
            return Ok(*part);
        }
    }
    Err(Stop::Words)
}

// How many of its letters, from the first on, the leads of a part are divided by.
#[tactic(auto, unfolding(kill_law::specs::Table::row))]
fn count_of(part: Part) -> usize
    ensures count { result ≡ dividing_letters part }
    ensures at_most_3 { result ≤ 3 }
{
    match part {
        Part::T | Part::J10 => 1,
        _ => form(part).len(),
    }
}

// Whether none of the first letters is zero.
fn are_nonzero<R: Ring>(ring: &R, letters: &[R::Elem], count: usize) -> bool
    requires ring { R.is_ring ring.now }
    requires letters { All (R.meaning ring.now).is_elem letters.now }
    requires count { count ≤ length letters.now }
    ensures nonzero { result ≡ true → (let m = R.meaning ring.now in (i : ℕ) → i < count → get_or (map m.value letters.now) i m.scalars.ops.zero ≢ m.scalars.ops.zero) }
{
    for i in 0..count {
        if ring.eq(letters[i], ring.zero()) {
            return false;
        }
    }
    true
}

// Whether the discriminant of the form of a part is not zero, where the part is J10.
fn is_regular<R: Ring>(ring: &R, part: Part, letters: &[R::Elem]) -> Result<bool, Range>
    requires ring { R.is_ring ring.now }
    requires letters { All (R.meaning ring.now).is_elem letters.now }
    requires three_letters { length letters.now ≡ 3 }
    ensures regular { IfOk result (λ t. t ≡ true → part ≡ parts.J10 → (let m = R.meaning ring.now in discriminant m.scalars (map m.value letters.now) ≢ m.scalars.ops.zero)) }
{
    if part != Part::J10 {
        return Ok(true);
    }
    let discriminant = triple_discriminant_of(ring, letters)?;
    Ok(!ring.eq(discriminant, ring.zero()))
}

// Whether the letters that the leads of a part are divided by are not zero, nor for J10 is the discriminant of its form.
fn are_units<R: Ring>(ring: &R, part: Part, letters: &[R::Elem]) -> Result<bool, Range>
    requires ring { R.is_ring ring.now }
    requires letters { All (R.meaning ring.now).is_elem letters.now }
    requires three_letters { length letters.now ≡ 3 }
    ensures units { IfOk result (λ t. t ≡ true → (let m = R.meaning ring.now in HasUnits m.scalars (map m.value letters.now) part)) }
{
    if !is_regular(ring, part, letters)? {
        return Ok(false);
    }
    Ok(are_nonzero(ring, letters, count_of(part)))
}

// Whether a part is a base part in two variables.
#[tactic(auto, unfolding(rules_corank2::specs::Parts::is_base2))]
fn is_base2(part: Part) -> bool
    ensures { result ≡ is_base2_of part }
{
    match part {
        Part::D4 | Part::D | Part::J | Part::X9 | Part::X | Part::Y | Part::Z | Part::W => true,
        _ => false,
    }
}

// Whether a part is a base part in three variables.
#[tactic(auto, unfolding(rules_corank3::specs::Parts::is_base3))]
fn is_base3(part: Part) -> bool
    ensures { result ≡ is_base3_of part }
{
    match part {
        Part::P8 | Part::Q | Part::S | Part::U | Part::T => true,
        _ => false,
    }
}

// The kill move of a grade of a part for a jet: of a base part its base kill.
fn kill_of<F: Field>(
    alloc: Global,
    field: &F,
    part: Part,
    f: &JetOf<F>,
    grade: u8,
) -> Result<ChangeOf<F>, Fault>
    requires ring { F.is_ring field.now }
    requires jet { IsJet (F.meaning field.now) f.now }
    requires at_most_8_variables { f.now.n ≤ 8 }
    requires of_part { length (row part).weights ≤ f.now.n }
    requires units { let m = F.meaning field.now in HasUnits m.scalars (letters_of f.now.n m.scalars part (polynomial_of m f.now)) part }
    requires above { (row part).degree < grade }
{
    if is_base2(part) {
        extend2(alloc, field, part, f, grade)
    } else if is_base3(part) {
        extend3(alloc, field, part, f, grade)
    } else {
        kill(alloc, field, part, f, grade)
    }
}

// The kill move of a grade of a part, with the letters that a jet has.
fn killed<F: Field<Elem = Ext<Frac>> + Drop>(
    alloc: Global,
    over: &Over<F>,
    words: &mut Words,
    part: Part,
    grade: u8,
) -> Result<Change<Ext<Frac>>, Stop>
    requires over { IsOver (F.is_ring over.now.field) (F.meaning over.now.field) over.now.algebra over.now.n over.now.order }
    requires of_part { length (row part).weights ≤ over.now.n }
    requires above { (row part).degree < grade }
{
    let f = over.jet(alloc, words)?;
    let a = letter(&over.field, part, &f, 0);
    let b = letter(&over.field, part, &f, 1);
    let c = letter(&over.field, part, &f, 2);
    if !are_units(&over.field, part, &[a, b, c])? {
        return Err(Stop::Words);
    }
    Ok(kill_of(alloc, &over.field, part, &f, grade)?)
}

// The kill move of a grade of a part for a jet, with three letters that the words spell.
fn killed_with<F: Field<Elem = Ext<Frac>> + Drop>(
    alloc: Global,
    over: &Over<F>,
    words: &mut Words,
    part: Part,
    grade: u8,
) -> Result<Change<Ext<Frac>>, Stop>
    requires over { IsOver (F.is_ring over.now.field) (F.meaning over.now.field) over.now.algebra over.now.n over.now.order }
    requires of_part { length (row part).weights ≤ over.now.n }
    requires above { (row part).degree < grade }
{
    let a = over.element(words)?;
    let b = over.element(words)?;
    let c = over.element(words)?;
    if !are_units(&over.field, part, &[a, b, c])? {
        return Err(Stop::Words);
    }
    let f = over.jet(alloc, words)?;
    let principal = Principal { part, a, b, c };
    Ok(kill_at(alloc, &over.field, &principal, &f, over.n, grade)?)
}

/// Appends the kill move of a grade of a part: its change of coordinates.
pub(crate) fn calculate<F: Field<Elem = Ext<Frac>> + Drop>(
    alloc: Global,
    command: &[u8],
    over: &Over<F>,
    words: &mut Words,
    out: &mut Vec<u8>,
) -> Result<(), Stop>
    requires over { IsOver (F.is_ring over.now.field) (F.meaning over.now.field) over.now.algebra over.now.n over.now.order }
{
    let part = part_of(words.next())?;
    let grade = words.small()?;
    if variables(part) > over.n || grading(part).1 >= grade {
        return Err(Stop::Words);
    }
    if is(command, b"of") {
        put_change(alloc, out, &killed(alloc, over, words, part, grade)?)
    } else if is(command, b"with") {
        put_change(alloc, out, &killed_with(alloc, over, words, part, grade)?)
    } else {
        Err(Stop::Words)
    }
}
