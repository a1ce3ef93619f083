//! The top call.

ghost use Rattle.std.specs.Prelude.{ℕ, List, ◌≡◌, ◌↔◌, map, string_bytes, None, IfSome, ◌⊎◌};
ghost use Rattle.fdr_recover.specs.ImageHeader.{image_fault_of};
ghost use Rattle.fdr_readout.specs.Listing.{ListsEvents};
ghost use Rattle.fdr_top.specs.Recover.{HasOneRun};
ghost use Rattle.fdr_words.specs.Forms.{command_uses, form_of, IsInBounds};
ghost use Rattle.fdr_top.specs.Stages.{EndsBeforeDeck};
ghost use Rattle.fdr_top.specs.Answers.{ReadsTable, UsesDeck, WritesText, ReadsImage};
ghost use Rattle.fdr_top.specs.Commands.{Works, RunsCommand};
ghost use Rattle.fdr_top.specs.Doing.{DoesAsMeant, IsTold, SizeDecides};
ghost use Rattle.fdr_top.specs.Runs.{CommandRun};
ghost use Rattle.fdr_table.specs.Ranges.{IsInRange};
ghost use Rattle.fdr_check.specs.Soundness.{IsSound};
ghost use Rattle.fdr_frame.specs.WordCount.{IsWordCount};
ghost use Rattle.fdr_words.specs.Request.{form_of_request};
ghost use Rattle.fdr_top.specs.Refusals.{IsReadable};
ghost use Rattle.fdr_table.specs.Rows.{TableRows};

use crate::checking::write_report;
use crate::decoding::decode;
use crate::drilling::drill;
use crate::encoding::encode;
use crate::exceeding::exceed;
use crate::formatting::format;
use crate::list_bits::listbits;
use crate::listing::list;
use crate::load::load_table;
use crate::outcome::Outcome;
use crate::recording::record;
use crate::recovering::recover;
use crate::salvaging::salvage;
use crate::streaming::stream;
use crate::upgrading::upgrade;
use fdr_check::Sound;
use fdr_deck::Deck;
use fdr_io::{Sink, Source};
use fdr_words::{Request, WordsFault, read_words};
use std::alloc::Global;

/// Does the work of a command by the table that it reads.
fn work<D: Deck, O: Sink>(
    alloc: Global,
    request: &Request,
    sound: &Sound,
    deck: &mut D,
    out: &mut O,
) -> Outcome
    requires bounds { IsInBounds (form_of_request request.now) }
    requires reads { ReadsTable (form_of_request request.now) }
    requires word_count { IsWordCount sound.now.frame.words }
    requires in_range { IsInRange sound.now }
    requires sound { IsSound sound.now }
    ensures works { Works (form_of_request request.now) sound.now (record {
      tells = D.tells;
      old = D.state deck.old;
      new = D.state deck.new;
      written_before = O.written out.old;
      written_now = O.written out.new;
      sink_before = O.faults out.old;
      sink_now = O.faults out.new;
      answer = result;
    }) }
    ensures deck_unused { (UsesDeck (form_of_request request.now) → ⊥) → deck.new ≡ deck.old }
    ensures sink_unused { (WritesText (form_of_request request.now) → ⊥) → out.new ≡ out.old }
    ensures memory { ReadsImage (form_of_request request.now) → result ≡ Outcome.NoMemory
        → (deck.new ≡ deck.old) ⊎ IsReadable (command_uses (form_of_request request.now)).ring D.tells (D.state deck.old) (D.state deck.new) }
{
    match request {
        Request::CheckTable { .. } => write_report(alloc, sound, out),
        Request::StreamLine { .. } => stream(alloc, sound, deck, out),
        Request::ListBits { .. } => listbits(alloc, sound, deck, out),
        Request::FormatImage { slots, payload, .. } => format(sound, *slots, *payload, deck),
        Request::RecordLine { .. } => record(alloc, sound, deck),
        Request::ListImage { .. } => list(alloc, sound, deck, out),
        Request::Salvage { ring, .. } => salvage(alloc, sound, *ring, deck, out),
        Request::Exceed { .. } => exceed(alloc, sound, deck, out),
        Request::Drill { seed, frames, .. } => drill(alloc, sound, *seed, *frames, deck, out),
        Request::Encode
        | Request::Decode
        | Request::RecoverImage { .. }
        | Request::Upgrade { .. } => unreachable!(),
    }
}

/// Carries out a command: reads its table, where it has one, and does its work.
fn carry_out<T: Source, D: Deck, O: Sink>(
    alloc: Global,
    request: &Request,
    table: &mut T,
    deck: &mut D,
    out: &mut O,
) -> Outcome
    requires bounds { IsInBounds (form_of_request request.now) }
    ensures runs { RunsCommand (form_of_request request.now) (record {
      rest_before = T.rest table.old;
      rest_now = T.rest table.new;
      table_before = T.faults table.old;
      table_now = T.faults table.new;
      work = record {
        tells = D.tells;
        old = D.state deck.old;
        new = D.state deck.new;
        written_before = O.written out.old;
        written_now = O.written out.new;
        sink_before = O.faults out.old;
        sink_now = O.faults out.new;
        answer = result;
      };
    }) }
    ensures deck_untouched { EndsBeforeDeck result → deck.new ≡ deck.old }
    ensures table_unused { (ReadsTable (form_of_request request.now) → ⊥) → table.new ≡ table.old }
    ensures deck_unused { (UsesDeck (form_of_request request.now) → ⊥) → deck.new ≡ deck.old }
    ensures sink_unused { (WritesText (form_of_request request.now) → ⊥) → out.new ≡ out.old }
    ensures memory { ReadsImage (form_of_request request.now) → result ≡ Outcome.NoMemory
        → (deck.new ≡ deck.old) ⊎ IsReadable (command_uses (form_of_request request.now)).ring D.tells (D.state deck.old) (D.state deck.new) }
{
    match request {
        Request::Encode => encode(alloc, deck, out),
        Request::Decode => decode(alloc, deck, out),
        Request::RecoverImage { .. } => recover(alloc, deck, out),
        Request::Upgrade { .. } => upgrade(deck),
        _ => match load_table(alloc, table) {
            Ok(sound) => work(alloc, request, &sound, deck, out),
            Err(answer) => answer,
        },
    }
}

/// Runs the command that the words after the program's name ask for.
///
/// - `check TABLE` writes a report of the table to `out`.
/// - `stream TABLE` pulls a trace of bus words from the deck's input and writes its recorded stream.
/// - `listbits TABLE` pulls the input to its end and writes the listing of its bits.
/// - `encode` pulls the input to its end and writes the Harvard biphase levels of its bits.
/// - `decode` pulls the input to its end and writes the bits of its Harvard biphase levels.
/// - `format TABLE IMAGE` makes an image without blocks on the deck's disk.
/// - `record TABLE IMAGE` pulls a trace and records its stream in the image on the disk.
/// - `recover IMAGE` writes the payloads of the blocks that the image holds.
/// - `upgrade IMAGE` makes an image of version 1 one of version 2, in which can be recorded.
/// - `list TABLE IMAGE` writes the listing of the bits of these payloads.
/// - `salvage TABLE IMAGE` writes the listing of every run of blocks that the image still holds, read by its header, or by slots
///   and their payload where they are given.
/// - `exceed TABLE IMAGE` pulls rules, and writes the lines of their exceedances in the image's blocks.
/// - `drill TABLE IMAGE` records a generated trace in the image, and writes a line of what the image then lists as.
///
/// `table` gives the bytes of the table. Each answer says what was done; its clauses say when it comes and what it leaves.
#[tactic(auto, using(crate::proofs::OneRun::one_run))]
pub fn run<T: Source, D: Deck, O: Sink>(
    alloc: Global,
    args: &[String],
    table: &mut T,
    deck: &mut D,
    out: &mut O,
) -> Outcome
    // The words decide first, and where they are of no form nothing is touched.
    ensures usage { (result ≡ Outcome.Usage) ↔ (form_of (map string_bytes args.now) ≡ None) }
    ensures untouched { form_of (map string_bytes args.now) ≡ None
        → (table.new ≡ table.old) × (deck.new ≡ deck.old) × (out.new ≡ out.old) }

    // The command that they ask for does what it means.
    ensures means { IfSome (form_of (map string_bytes args.now)) (λ form. let r : CommandRun = record {
      rest_before = T.rest table.old;
      rest_now = T.rest table.new;
      table_before = T.faults table.old;
      table_now = T.faults table.new;
      work = record {
        tells = D.tells;
        old = D.state deck.old;
        new = D.state deck.new;
        written_before = O.written out.old;
        written_now = O.written out.new;
        sink_before = O.faults out.old;
        sink_now = O.faults out.new;
        answer = result;
      };
    } in IsTold form r → DoesAsMeant form r) }

    // The length of a disk decides, whatever the disk holds or tells.
    ensures size { IfSome (form_of (map string_bytes args.now)) (λ form. SizeDecides (command_uses form).work (command_uses form).ring (record {
      tells = D.tells;
      old = D.state deck.old;
      new = D.state deck.new;
      written_before = O.written out.old;
      written_now = O.written out.new;
      sink_before = O.faults out.old;
      sink_now = O.faults out.new;
      answer = result;
    })) }

    // What is promised of the command that they ask for.
    ensures runs { IfSome (form_of (map string_bytes args.now)) (λ form. RunsCommand form (record {
      rest_before = T.rest table.old;
      rest_now = T.rest table.new;
      table_before = T.faults table.old;
      table_now = T.faults table.new;
      work = record {
        tells = D.tells;
        old = D.state deck.old;
        new = D.state deck.new;
        written_before = O.written out.old;
        written_now = O.written out.new;
        sink_before = O.faults out.old;
        sink_now = O.faults out.new;
        answer = result;
      };
    })) }

    // Memory ends before the disk is asked for anything, or once it is known that its image can be read.
    ensures memory { result ≡ Outcome.NoMemory → IfSome (form_of (map string_bytes args.now)) (λ form. ReadsImage form
        → (deck.new ≡ deck.old) ⊎ IsReadable (command_uses form).ring D.tells (D.state deck.old) (D.state deck.new)) }

    // What it doesn't use isn't asked for anything.
    ensures deck_untouched { EndsBeforeDeck result → deck.new ≡ deck.old }
    ensures left_alone { IfSome (form_of (map string_bytes args.now)) (λ form.
        ((ReadsTable form → ⊥) → table.new ≡ table.old) × ((UsesDeck form → ⊥) → deck.new ≡ deck.old)
        × ((WritesText form → ⊥) → out.new ≡ out.old)) }

    // What is said of runs and of listings has one meaning: each image without a fault has one recovered run, and each list of
    // bits has one list of frames and gaps.
    ensures one_run { (image : List ℕ) → image_fault_of image ≡ None → HasOneRun image }
    ensures one_listing { (t : TableRows) (b : List ℕ) → ListsEvents t b }
{
    match read_words(alloc, args) {
        Ok(request) => carry_out(alloc, &request, table, deck, out),
        Err(WordsFault::Usage) => Outcome::Usage,
        Err(WordsFault::NoMemory) => Outcome::NoMemory,
    }
}
