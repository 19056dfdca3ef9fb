// What holds for every durable medium.
ghost use Rattle.std.specs.Prelude.{◌≡◌, ◌≤◌, length};
ghost use Rattle.hound_medium.specs.{WhereTells, WhereKeeps};
ghost use Rattle.hound_durable.specs.Durables.{within, synced};
ghost use Rattle.hound_durable.specs.Losses.{Ascends};

use crate::durable::Durable;
use hound_medium::{Medium, Placed};

/// The medium within has the bytes that a durable one shows, and since its last flush it was written only at ascending
/// places.
///
/// So a loss of power leaves it as `SurvivesLoss` allows from that flush on. The flush is at least as late as the last
/// Ok `flush` of the durable medium. Where no call of the medium within has failed, none of the durable one has
/// (`faults`).
pub fn a_durable_medium_ascends<M: Medium>(durable: &Durable<M>)
    ensures contents { WhereTells M.tells
        ((⟦<Durable<M> as Placed>⟧.state durable.now).contents ≡ (within durable.now).contents) }
    ensures past { WhereKeeps M.tells M.keeps
        ((⟦<Durable<M> as Placed>⟧.state durable.now).past ≡ (within durable.now).past) }
    ensures start { (⟦<Durable<M> as Placed>⟧.state durable.now).start ≡ (within durable.now).start }
    ensures flushed { WhereKeeps M.tells M.keeps
        ((⟦<Durable<M> as Placed>⟧.state durable.now).flushed ≤ synced durable.now) }
    ensures known { WhereKeeps M.tells M.keeps (synced durable.now ≤ length (within durable.now).past) }
    ensures faults { WhereTells M.tells
        ((⟦<Durable<M> as Placed>⟧.state durable.now).faults ≤ (within durable.now).faults) }
    ensures ascends { WhereKeeps M.tells M.keeps
        (Ascends (within durable.now).past (synced durable.now) (length (within durable.now).past)) }
{}
