//! The table of the principal parts: the weights of their variables, and their leads.

ghost use Rattle.std.specs.Prelude.{◌≡◌, ◌++◌, ◌-◌, ℕ, length, map, get_or, replicate};
ghost use Rattle.kill_law.specs.Table.{row};
ghost use Rattle.kill_leads.specs.FirstLead.{as_three};

use kill_law::{Lead, Part, table};

/// The leads of a part, in the order in which they are tried.
#[tactic(auto, unfolding(kill_law::specs::Table::row))]
pub fn leads(part: Part) -> &'static [Lead]
    ensures { result.now ≡ (row part).leads }
{
    match part {
        Part::D4 | Part::X9 | Part::P8 => &[],
        Part::D => &table::D,
        Part::J => &table::J,
        Part::X => &table::X,
        Part::Y => &table::Y,
        Part::Z => &table::Z,
        Part::W => &table::W,
        Part::Q => &table::Q,
        Part::S => &table::S,
        Part::U => &table::U,
        Part::T => &table::T,
        Part::E6 => &table::E6,
        Part::E7 => &table::E7,
        Part::E8 => &table::E8,
        Part::J10 => &table::J10,
        Part::E12 => &table::E12,
        Part::E13 => &table::E13,
        Part::E14 => &table::E14,
        Part::Z11 => &table::Z11,
        Part::Z12 => &table::Z12,
        Part::Z13 => &table::Z13,
        Part::W12 => &table::W12,
        Part::W13 => &table::W13,
        Part::Q10 => &table::Q10,
        Part::Q11 => &table::Q11,
        Part::Q12 => &table::Q12,
        Part::S11 => &table::S11,
        Part::S12 => &table::S12,
        Part::U12 => &table::U12,
        Part::JT => &table::JT,
    }
}

/// The weights of the variables of a part, 0 for variables that it does not have, and the weighted
/// degree of its form.
#[tactic(auto, unfolding(kill_law::specs::Table::row))]
pub fn grading(part: Part) -> ([u8; 8], u8)
    ensures weights { result.0 ≡ (row part).weights ++ replicate (8 - length (row part).weights) 0 }
    ensures degree { result.1 ≡ (row part).degree }
{
    match part {
        Part::D4 | Part::D | Part::J => ([1, 1, 0, 0, 0, 0, 0, 0], 3),
        Part::X9 | Part::X | Part::Y | Part::Z | Part::W => ([1, 1, 0, 0, 0, 0, 0, 0], 4),
        Part::P8 | Part::Q | Part::S | Part::U | Part::T => ([1, 1, 1, 0, 0, 0, 0, 0], 3),
        Part::E6 => ([4, 3, 0, 0, 0, 0, 0, 0], 12),
        Part::E7 => ([3, 2, 0, 0, 0, 0, 0, 0], 9),
        Part::E8 => ([5, 3, 0, 0, 0, 0, 0, 0], 15),
        Part::J10 | Part::JT => ([2, 1, 0, 0, 0, 0, 0, 0], 6),
        Part::E12 => ([7, 3, 0, 0, 0, 0, 0, 0], 21),
        Part::E13 => ([5, 2, 0, 0, 0, 0, 0, 0], 15),
        Part::E14 => ([8, 3, 0, 0, 0, 0, 0, 0], 24),
        Part::Z11 => ([4, 3, 0, 0, 0, 0, 0, 0], 15),
        Part::Z12 => ([3, 2, 0, 0, 0, 0, 0, 0], 11),
        Part::Z13 => ([5, 3, 0, 0, 0, 0, 0, 0], 18),
        Part::W12 => ([5, 4, 0, 0, 0, 0, 0, 0], 20),
        Part::W13 => ([4, 3, 0, 0, 0, 0, 0, 0], 16),
        Part::Q10 => ([8, 6, 9, 0, 0, 0, 0, 0], 24),
        Part::Q11 => ([6, 4, 7, 0, 0, 0, 0, 0], 18),
        Part::Q12 => ([5, 3, 6, 0, 0, 0, 0, 0], 15),
        Part::S11 => ([4, 5, 6, 0, 0, 0, 0, 0], 16),
        Part::S12 => ([3, 4, 5, 0, 0, 0, 0, 0], 13),
        Part::U12 => ([4, 4, 3, 0, 0, 0, 0, 0], 12),
    }
}

/// The number of variables of a part.
#[tactic(auto, unfolding(kill_law::specs::Table::row))]
pub fn variables(part: Part) -> u8
    ensures { result ≡ length (row part).weights }
{
    match part {
        Part::P8
        | Part::Q
        | Part::S
        | Part::U
        | Part::T
        | Part::Q10
        | Part::Q11
        | Part::Q12
        | Part::S11
        | Part::S12
        | Part::U12 => 3,
        _ => 2,
    }
}

/// The monomials of the form of a part.
#[tactic(auto, unfolding(kill_law::specs::Table::row))]
pub fn form(part: Part) -> &'static [[u8; 3]]
    ensures { result.now ≡ map as_three (row part).form }
{
    match part {
        Part::X9 | Part::P8 => &[],
        Part::D4 => &[[2, 1, 0], [0, 3, 0]],
        Part::D => &[[2, 1, 0]],
        Part::J => &[[3, 0, 0]],
        Part::X => &[[4, 0, 0], [2, 2, 0]],
        Part::Y => &[[2, 2, 0]],
        Part::Z => &[[3, 1, 0]],
        Part::W => &[[4, 0, 0]],
        Part::Q => &[[3, 0, 0], [0, 1, 2]],
        Part::S => &[[0, 2, 1], [1, 0, 2]],
        Part::U => &[[3, 0, 0], [0, 3, 0]],
        Part::T => &[[1, 1, 1], [3, 0, 0], [0, 3, 0]],
        Part::E6 => &[[3, 0, 0], [0, 4, 0]],
        Part::E7 => &[[3, 0, 0], [1, 3, 0]],
        Part::E8 => &[[3, 0, 0], [0, 5, 0]],
        Part::J10 => &[[3, 0, 0], [1, 4, 0], [0, 6, 0]],
        Part::E12 => &[[3, 0, 0], [0, 7, 0]],
        Part::E13 => &[[3, 0, 0], [1, 5, 0]],
        Part::E14 => &[[3, 0, 0], [0, 8, 0]],
        Part::Z11 => &[[3, 1, 0], [0, 5, 0]],
        Part::Z12 => &[[3, 1, 0], [1, 4, 0]],
        Part::Z13 => &[[3, 1, 0], [0, 6, 0]],
        Part::W12 => &[[4, 0, 0], [0, 5, 0]],
        Part::W13 => &[[4, 0, 0], [1, 4, 0]],
        Part::Q10 => &[[3, 0, 0], [0, 1, 2], [0, 4, 0]],
        Part::Q11 => &[[3, 0, 0], [0, 1, 2], [1, 3, 0]],
        Part::Q12 => &[[3, 0, 0], [0, 1, 2], [0, 5, 0]],
        Part::S11 => &[[0, 2, 1], [1, 0, 2], [4, 0, 0]],
        Part::S12 => &[[0, 2, 1], [1, 0, 2], [3, 1, 0]],
        Part::U12 => &[[3, 0, 0], [0, 3, 0], [0, 0, 4]],
        Part::JT => &[[3, 0, 0], [2, 2, 0]],
    }
}
