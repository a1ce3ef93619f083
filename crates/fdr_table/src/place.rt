use std::marker::Model;

/// Where a part of a parameter is in the frames.
#[derive(Clone, Copy, Debug)]
pub struct Place {
    /// The index of the parameter.
    pub param: u32,
    /// The part's number, 1 to 4.
    pub part: u8,
    /// The subframes: bit `s - 1` says that subframe `s` is in the set.
    pub subs: u8,
    /// The word, 1 to 1024.
    pub word: u32,
    /// Words from one occurrence in a subframe to the next, 0 to 1024; 0 where there is but one.
    pub step: u32,
    /// The lowest bit in the word, 1 to 12.
    pub lsb: u8,
    /// Bits of the part, 1 to 12, none above bit 12.
    pub width: u8,
    /// The frame of each period, counted from 0.
    pub cycle: u8,
    /// Frames from one occurrence to the next: 1, 2, 4, 8 or 16.
    pub period: u8,
    /// The place's row in the table, counted from 0.
    pub row: u32,
}

impl Model for Place {
    ghost use Rattle.fdr_table.specs.Rows.{PlaceRow};

    ghost Value = { PlaceRow };

    ghost use Rattle.fdr_table.specs.Views.{place_view};
    ghost use Rattle.fdr_table.specs.Ranges.{IsPlaceInRange};

    ghost view = { place_view };

    ghost invariant = { λ p. IsPlaceInRange (place_view p) };

    ghost inverse = { λ p. record {
      param = p.param;
      part = p.part;
      subs = p.subs;
      word = p.word;
      step = p.step;
      lsb = p.lsb;
      width = p.width;
      cycle = p.cycle;
      period = p.period;
      row = p.row;
    } };
}
