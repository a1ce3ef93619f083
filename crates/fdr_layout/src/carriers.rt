//! The parts of a parameter.

ghost use Rattle.std.specs.Prelude.{◌≡◌, ◌<◌, ◌≤◌, ◌++◌, All, length, map, IfOk, OnOk};
ghost use Rattle.std.specs.Option.{option_to_list};
ghost use Rattle.std.specs.List.{filter_map, range_with_len};
ghost use Rattle.fdr_table.specs.Rows.{PlaceRow};
ghost use Rattle.fdr_table.specs.Ranges.{IsPlaceInRange};
ghost use Rattle.fdr_check.specs.Occurrences.{is_part, part_width, shift_of};
ghost use Rattle.fdr_layout.specs.Samples.{carrier_of, part_at};
ghost use Rattle.fdr_layout.specs.SlotParts.{parts_of_sample};

use crate::parts::Part;
use fdr_check::{part_bits, push};
use fdr_table::{NoMemory, Place};
use std::alloc::Global;
use std::marker::Model;

/// A part of a parameter: the bits of a superframe at which its occurrences begin, how many bits it has, and how many
/// bits of the raw value are below it.
#[derive(Drop)]
pub(crate) struct Carrier {
    bits: Vec<u32>,
    width: u8,
    shift: u8,
}

impl Model for Carrier {
    ghost use Rattle.std.specs.Prelude.{◌≤◌, ℕ, All, map};
    ghost use Rattle.fdr_check.specs.Occurrences.{Occurrence};
    ghost use Rattle.fdr_layout.specs.Ranges.{LieInWord};
    ghost use Rattle.fdr_layout.specs.Samples.{Carrier};

    ghost Value = { Carrier };

    ghost view = { λ c. record { occurrences = map (λ x. record { at = x; width = c.width }) c.bits.items; shift = c.shift } };

    ghost invariant = { λ c. (c.shift ≤ 36) × All (λ x. LieInWord x c.width) c.bits.items };
}

/// Whether a place carries this part of the parameter with this index.
fn is_part(place: &Place, param: u32, part: u8) -> bool
    ensures { result ≡ is_part param part place.now }
{
    place.param == param && place.part == part
}

#[tactic(auto, using(fdr_lists::proofs::Searches::find_here, fdr_lists::proofs::Searches::find_more), unfolding(fdr_check::specs::Occurrences::part_width))]
fn part_width(places: &[Place], param: u32, part: u8) -> u8
    ensures width { result ≡ part_width places.now param part }
    ensures one_word { result ≤ 12 }
{
    for place in places {
        if is_part(place, param, part) {
            return place.width;
        }
    }
    0
}

/// The four parts that a parameter may have, by part number. `slots` is room for the slots of a place.
pub(crate) fn carriers(
    alloc: Global,
    slots: &mut Vec<u32>,
    words: u32,
    places: &[Place],
    param: u32,
) -> Result<Vec<Carrier>, NoMemory>
    requires some_words { 0 < words }
    requires word_limit { words ≤ 1024 }
    requires in_range { All IsPlaceInRange places.now }
    requires widths { All (λ (l : PlaceRow). l.param ≡ param → l.width ≡ part_width places.now param l.part) places.now }
    ensures { IfOk result (λ v. v.items ≡ map (carrier_of words places.now param) (range_with_len 1 4)) }
{
    let mut carriers = Vec::new(alloc);
    let mut shift = 0;
    for part in 1..5u8 {
        let width = part_width(places, param, part);
        let carrier = Carrier {
            bits: part_bits(alloc, slots, words, places, param as usize, part)?,
            width,
            shift,
        };
        push(&mut carriers, carrier)?;
        shift += width;
    }
    Ok(carriers)
}

/// Adds a part of the sample with this number and index, where there is one.
fn add_part(
    parts: &mut Vec<Part>,
    carrier: &Carrier,
    number: u32,
    index: u32,
) -> Result<(), NoMemory>
    ensures { OnOk result (parts.new.items ≡ parts.old.items ++ parts_of_sample number (option_to_list (part_at index carrier.now))) }
{
    match carrier.bits.get(index as usize) {
        Some(bit) => push(
            parts,
            Part::at_bit(*bit, carrier.width, carrier.shift, number),
        ),
        None => Ok(()),
    }
}

/// Adds the parts of the sample with this number and index, by part number.
pub(crate) fn add_parts(
    parts: &mut Vec<Part>,
    carriers: &[Carrier],
    number: u32,
    index: u32,
) -> Result<(), NoMemory>
    ensures { OnOk result (parts.new.items ≡ parts.old.items ++ parts_of_sample number (filter_map (part_at index) carriers.now)) }
{
    for carrier in carriers {
        add_part(parts, carrier, number, index)?;
    }
    Ok(())
}
