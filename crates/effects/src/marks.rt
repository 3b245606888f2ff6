//! What connections that meet a proxy tell of its toxics.
ghost use Rattle.std.specs.Prelude.{◌≡◌, ◌≤◌, IfOk, length, zip};
ghost use Rattle.std.specs.List.{list_all};
ghost use Rattle.toxic_defs.specs.DeliveredLines.{met_view};
ghost use Rattle.toxic_defs.specs.Limits.{most_toxics};
ghost use Rattle.effects.specs.EffectCounts.{all_but, is_same, same_record, same_records, switched_off, toxics_at, with_toxics};
ghost use Rattle.effects.specs.Marks.{contribution_in};

use conn_workers::{Delivery, Recording};
use scenarios::Scenario;
use segment_writer::Framed;
use std::alloc::{AllocError, Global};
use toxic_defs::{Key, MetProxy, Toxic, applies};

/// What a connection tells of a toxic of the proxy that it meets.
#[derive(Clone, Copy, Debug)]
pub(crate) struct Mark {
    /// The connection draws the toxic.
    pub(crate) drawn: bool,
    /// Without the toxic its line of the report is another one, or its records are.
    pub(crate) has_effect: bool,
}

/// A scenario with its number, and the seed of the random words.
#[derive(Drop)]
pub(crate) struct Under<'s> {
    pub(crate) alloc: Global,
    pub(crate) seed: u64,
    pub(crate) number: u32,
    pub(crate) scenario: &'s Scenario,
}

impl<'s> Under<'s> {
    ghost use Rattle.std.specs.Prelude.{◌≡◌, ◌≤◌, ◌++◌, IfOk, OnOk, length};
    ghost use Rattle.toxic_defs.specs.DeliveredLines.{met_view};
    ghost use Rattle.toxic_defs.specs.Limits.{most_toxics};
    ghost use Rattle.effects.specs.EffectCounts.{has_effect, toxics_at};
    ghost use Rattle.effects.specs.Marks.{contribution_in, marks_in, marks_of, replay};

    /// A mark for each toxic of a proxy that a connection meets, those of what the client sends first.
    pub(crate) fn marks(
        &self,
        recording: &Recording<'_, '_>,
        met: MetProxy<'_>,
    ) -> Result<Vec<Mark>, AllocError>
        requires few_up { length met.up.now ≤ most_toxics }
        requires few_down { length met.down.now ≤ most_toxics }
        ensures { IfOk result (λ v. v.items ≡ marks_of self.now.seed self.now.number (met_view met.entry) (replay recording.now)) }
    {
        let whole = recording.delivery(self.alloc, Some(met), self.seed, self.number)?;
        let mut marks = Vec::with_capacity(self.alloc, met.up.len() + met.down.len())?;
        self.put_marks(recording, &whole, met, 0, &mut marks)?;
        self.put_marks(recording, &whole, met, 1, &mut marks)?;
        Ok(marks)
    }

    // Appends the marks of a direction's toxics. The connection contributes `whole`.
    fn put_marks(
        &self,
        recording: &Recording<'_, '_>,
        whole: &Delivery,
        met: MetProxy<'_>,
        direction: u8,
        marks: &mut Vec<Mark>,
    ) -> Result<(), AllocError>
        requires few_up { length met.up.now ≤ most_toxics }
        requires few_down { length met.down.now ≤ most_toxics }
        requires whole { contribution_in whole.now ≡ (replay recording.now).contribution self.now.seed self.now.number (met_view met) }
        ensures { OnOk result (marks.new.items ≡ marks.old.items ++ marks_in self.now.seed self.now.number (met_view met.entry) (replay recording.now)
            direction (toxics_at direction (met_view met.entry))) }
    {
        let toxics = toxics_at(met, direction);
        for (place, toxic) in toxics.iter().enumerate() {
            let key = Key {
                seed: self.seed,
                s: self.number,
                c: recording.conn().number,
                d: direction,
                t: place as u8,
            };
            let drawn = applies(toxic, key);
            let has_effect = self.has_effect(recording, whole, met, direction, place)?;
            marks.push(Mark { drawn, has_effect })?;
        }
        Ok(())
    }

    // Whether a connection that contributes `whole` contributes something else without the toxic of a direction at a place.
    #[tactic(auto, using(crate::proofs::MarkedCounts::length_all_but))]
    fn has_effect(
        &self,
        recording: &Recording<'_, '_>,
        whole: &Delivery,
        met: MetProxy<'_>,
        direction: u8,
        place: usize,
    ) -> Result<bool, AllocError>
        requires few_up { length met.up.now ≤ most_toxics }
        requires few_down { length met.down.now ≤ most_toxics }
        requires whole { contribution_in whole.now ≡ (replay recording.now).contribution self.now.seed self.now.number (met_view met) }
        ensures { IfOk result (λ b. b ≡ has_effect self.now.seed self.now.number (met_view met.entry) (replay recording.now) direction place) }
    {
        let others = all_but(self.alloc, place, toxics_at(met, direction))?;
        let without = with_toxics(met, direction, &others);
        let rest = recording.delivery(self.alloc, Some(without), self.seed, self.number)?;
        Ok(!is_same(whole, &rest))
    }
}

fn toxics_at(met: MetProxy<'_>, direction: u8) -> &[Toxic]
    requires few_up { length met.up.now ≤ most_toxics }
    requires few_down { length met.down.now ≤ most_toxics }
    ensures toxics { result.now ≡ toxics_at direction (met_view met.entry) }
    ensures few { length result.now ≤ most_toxics }
{
    if direction == 0 { met.up } else { met.down }
}

fn with_toxics<'t>(met: MetProxy<'t>, direction: u8, toxics: &'t [Toxic]) -> MetProxy<'t>
    requires few_up { length met.up.now ≤ most_toxics }
    requires few_down { length met.down.now ≤ most_toxics }
    requires few { length toxics.now ≤ most_toxics }
    ensures met { met_view result ≡ with_toxics direction toxics.now (met_view met.entry) }
    ensures few_up { length result.up.now ≤ most_toxics }
    ensures few_down { length result.down.now ≤ most_toxics }
{
    if direction == 0 {
        MetProxy { up: toxics, ..met }
    } else {
        MetProxy {
            down: toxics,
            ..met
        }
    }
}

fn switched_off(toxic: &Toxic) -> Toxic
    ensures { result ≡ switched_off toxic.now }
{
    Toxic::new(toxic.kind(), 0).unwrap()
}

// Toxics of which the one at a place is switched off.
fn all_but(alloc: Global, place: usize, toxics: &[Toxic]) -> Result<Vec<Toxic>, AllocError>
    requires { length toxics.now ≤ most_toxics }
    ensures { IfOk result (λ v. v.items ≡ all_but place toxics.now) }
{
    let numbered = toxics.iter().enumerate();
    let changed = numbered.map(|(n, toxic)| if n == place {
        switched_off(toxic)
    } else {
        *toxic
    });
    changed.collect(alloc)
}

fn is_same(whole: &Delivery, rest: &Delivery) -> bool
    ensures { result ≡ is_same (contribution_in whole.now) (contribution_in rest.now) }
{
    whole.line.as_slice() == rest.line.as_slice()
        && same_records(whole.segments.as_slice(), rest.segments.as_slice())
}

fn same_records(xs: &[Framed], ys: &[Framed]) -> bool
    ensures { result ≡ same_records xs.now ys.now }
{
    xs.len() == ys.len() && same_in_turn(xs, ys)
}

fn same_in_turn(xs: &[Framed], ys: &[Framed]) -> bool
    ensures { result ≡ list_all same_record (zip xs.now ys.now) }
{
    xs.iter().zip(ys).all(|(x, y)| same_record(x, y))
}

fn same_record(x: &Framed, y: &Framed) -> bool
    ensures { result ≡ same_record (x.now, y.now) }
{
    x.bytes.as_slice() == y.bytes.as_slice()
}
