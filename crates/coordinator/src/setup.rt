// Setup: what is listed is tested, filled into the tables of a fresh coordinator, and the rules are asked of those.
#![tactic(auto, unfolding(paper::specs::Fresh::fresh, crate::specs::Forms::fills))]

ghost use Rattle.std.specs.Prelude.{◌≡◌, map, true, ◌≤◌, ◌%◌, length};
ghost use Rattle.lists.specs.Lists.{all};
ghost use Rattle.wire.specs.Lun.{lun_form, head_of};
ghost use Rattle.paper.specs.Setup.{ids_in, luns_in, setup_in};
ghost use Rattle.paper.specs.Tables.{initiator_table, unit_table};
ghost use Rattle.paper.specs.Fresh.{nothing, fresh, started_with, started};
ghost use Rattle.paper.specs.declared.answers.Refusal.TheVariants.{BadSetup};
ghost use Rattle.paper.specs.declared.answers.Answer.TheVariants.{Refused};
ghost use Rattle.coordinator.specs.Forms.{fills};

use paper::answers::{Answer, Refusal};
use paper::outcomes::Started;
use paper::state::{Coordinator, ENROLMENTS_SIZE, ID_SIZE, IDS_SIZE, Initiators, Units};
use paper::{answers, setters, state};
use standing::rules;
use std::array;

// "H: a LUN is 00h, nn, then six 00h; default LUNs too."
fn luns_formed(luns: &[u8]) -> bool
    ensures { result ≡ all lun_form (luns_in luns.now) }
{
    luns.chunks_exact(8)
        .all(|lun| wire::lun_form(wire::be64(lun, 0)))
}

// Whether what is listed is whole, has room in the tables, and its LUNs are of the form.
fn fills_tables(ids: &[u8], luns: &[u8]) -> bool
    ensures { result ≡ fills ids.now luns.now }
{
    ids.len() % ID_SIZE == 0
        && luns.len() % 8 == 0
        && ids.len() <= IDS_SIZE
        && luns.len() <= 256
        && luns_formed(luns)
}

// The initiators by their TransportIDs; nobody is enrolled.
fn initiators_of(listed: &[u8]) -> Initiators
    requires { (length listed.now % 24 ≡ 0) × (length listed.now ≤ 384) }
    ensures { result ≡ initiator_table (ids_in listed.now) }
{
    let mut ids = [0; IDS_SIZE];
    ids[..listed.len()].copy_from_slice(listed);
    Initiators {
        count: listed.len() / ID_SIZE,
        ids,
        enrolments: [0; ENROLMENTS_SIZE],
    }
}

// The units by their default LUNs.
fn units_of(luns: &[u8]) -> Units
    requires { (length luns.now % 8 ≡ 0) × (length luns.now ≤ 256) }
    ensures { result ≡ unit_table (map head_of (luns_in luns.now)) }
{
    Units {
        count: luns.len() / 8,
        luns: array::from_fn(|k| wire::lun_head(wire::be64(luns, 8 * k))),
    }
}

// The coordinator that a setup starts, if it keeps the rules.
fn fresh_with(ids: &[u8], luns: &[u8]) -> Coordinator
    requires { fills ids.now luns.now ≡ true }
    ensures { result ≡ fresh (setup_in ids.now luns.now) }
{
    let empty = state::fresh_coordinator();
    let listed = setters::with_initiators(empty, initiators_of(ids));
    setters::with_units(listed, units_of(luns))
}

// "a coordinator without initiators and units comes back"
fn refused() -> Started
    ensures { result ≡ started_with nothing (Refused BadSetup) }
{
    let answer = Answer::Refused(Refusal::BadSetup);
    Started {
        state: state::fresh_coordinator(),
        answer,
        values: answers::values_of(answer),
    }
}

// Starts a coordinator from the TransportIDs and the default LUNs that are listed.
#[tactic(auto, using(crate::proofs::Setting::unfilled, crate::proofs::Setting::unkept, crate::proofs::Setting::begun))]
pub fn setup(ids: &[u8], luns: &[u8]) -> Started
    ensures { result ≡ started ids.now luns.now }
{
    if !fills_tables(ids, luns) {
        return refused();
    }
    let c = fresh_with(ids, luns);
    if !rules::setup_kept(&c) {
        return refused();
    }
    Started {
        state: c,
        answer: Answer::Good,
        values: answers::values_of(Answer::Good),
    }
}
