//! Making an image of version 1 one of version 2.

ghost use Rattle.std.specs.Prelude.{◌≡◌, ◌≢◌, ◌≤◌, ℕ, List, Option, OnOk, OnErr, IsTrue};
ghost use Rattle.fdr_pieces.specs.Pieces.{LeavesStops};
ghost use Rattle.fdr_io.specs.Faults.{Rose};
ghost use Rattle.fdr_deck.specs.Calls.{IsDiskWork};
ghost use Rattle.fdr_deck.specs.Disk.{IsSettled, KeepsDisk};
ghost use Rattle.fdr_slot.specs.Places.{image_size};
ghost use Rattle.fdr_ring.specs.Rings.{OfSettled};
ghost use Rattle.fdr_table.specs.Rows.{TableRows};
ghost use Rattle.fdr_words.specs.Forms.{upgrade_image};
ghost use Rattle.fdr_top.specs.Stages.{WritesNothing};
ghost use Rattle.fdr_top.specs.Answers.{IsOwn};
ghost use Rattle.fdr_top.specs.Commands.{Works};
ghost use Rattle.fdr_top.specs.Upgrade.{UpgradesImage, VersionStop, image_upgraded_from};

use crate::outcome::Outcome;
use crate::recovering::refusal;
use fdr_deck::Deck;
use fdr_io::Failed;
use fdr_recover::read_image_header;
use fdr_slot::Header;

/// Where the byte of an image is that tells its version.
const VERSION_AT: u64 = 1;

/// That byte in version 2.
pub(crate) const VERSION_2: u8 = 0xa5;

/// Writes the byte of version 2 in an image with a header of version 1, and makes the disk durable.
fn write_version<D: Deck>(deck: &mut D, header: &Header) -> Result<(), Failed>
    requires whole { image_size header.now ≤ (D.state deck.old).extent }
    ensures written { OnOk result (IsTrue D.tells.bytes
        → (D.state deck.new).held ≡ image_upgraded_from header.now.version (D.state deck.old).held) }
    ensures settled { OnOk result (IsTrue D.tells.stops → IsSettled (D.state deck.new)) }
    ensures part { IsTrue D.tells.bytes → VersionStop header.now.version (D.state deck.old).held (D.state deck.new).held }
    ensures disk_work { IsDiskWork D.tells (OfSettled (D.state deck.old) (VersionStop header.now.version))
        (D.state deck.old) (D.state deck.new) }
    ensures extent { (D.state deck.new).extent ≡ (D.state deck.old).extent }
    ensures disk_fault { OnErr result (Rose (D.state deck.old).disk_faults (D.state deck.new).disk_faults) }
    ensures no_disk_fault { OnOk result ((D.state deck.new).disk_faults ≡ (D.state deck.old).disk_faults) }
{
    if header.version == 1 {
        deck.write(VERSION_AT, &[VERSION_2])?;
    }
    deck.sync()
}

/// Makes the deck's image one of version 2, and gives the answer.
fn upgrade_image<D: Deck>(deck: &mut D) -> Outcome
    ensures answer { (image : List ℕ) → IsOwn (upgrade_image image) result }
    ensures upgrades { UpgradesImage D.tells (D.state deck.old) (D.state deck.new) result }
    ensures untouched { WritesNothing result → KeepsDisk (D.state deck.old) (D.state deck.new) }
    ensures stops { WritesNothing result → LeavesStops D.tells (D.state deck.old) (D.state deck.new) }
    ensures disk_fault { result ≡ Outcome.DiskFault → Rose (D.state deck.old).disk_faults (D.state deck.new).disk_faults }
    ensures no_disk_fault { result ≢ Outcome.DiskFault → (D.state deck.new).disk_faults ≡ (D.state deck.old).disk_faults }
{
    let header = match read_image_header(deck) {
        Ok(header) => header,
        Err(fault) => return refusal(fault),
    };
    match write_version(deck, &header) {
        Ok(()) => Outcome::Done,
        Err(Failed) => Outcome::DiskFault,
    }
}

/// `upgrade`: makes an image of version 1 one of version 2. One of version 2 stays as it is. It takes no memory.
pub fn upgrade<D: Deck>(deck: &mut D) -> Outcome
    ensures works { (image : List ℕ) (t : TableRows) (written : Option (List ℕ)) (faults : ℕ)
        → Works (upgrade_image image) t (record {
          tells = D.tells;
          old = D.state deck.old;
          new = D.state deck.new;
          written_before = written;
          written_now = written;
          sink_before = faults;
          sink_now = faults;
          answer = result;
        }) }
    ensures memory { result ≢ Outcome.NoMemory }
{
    upgrade_image(deck)
}
