//! The toxics of a proxy.
ghost use Rattle.std.specs.Prelude.{◌≡◌, bytes_eq, option_map, option_and_then};
ghost use Rattle.std.specs.List.{list_any};
ghost use Rattle.serde_json.specs.View.{view, items_view};
ghost use Rattle.lists.specs.Agreement.{AgreesUnlessMemory};
ghost use Rattle.toxic_defs.specs.Toxics.{made_toxic};
ghost use Rattle.scenarios.specs.Refusals.{scenario_refusal};
ghost use Rattle.scenarios.specs.ToxicTypes.{ppm_of};
ghost use Rattle.scenarios.specs.ToxicsInFiles.{toxic_fields, no_toxics, toxics_from};
ghost use Rattle.scenarios.specs.SeenFields.{seen_texts};

use crate::error::{Cause, Refusal, ScenarioFault};
use crate::fields::{is_object_or_absent, optional_text, required_text};
use crate::toxic_types::{
    Stream, ToxicType, kind_in_range, name_of, ppm_of, stream_named, toxic_type,
};
use pcap_records::Values;
use serde_json::Value;
use std::alloc::{AllocError, Global};
use std::marker::Model;
use toxic_defs::{Kind, Toxic};

// The most toxics that a proxy has for one direction.
const TOXIC_LIMIT: usize = 8;

/// The toxics of one direction of a proxy, in the order of its file.
pub type ToxicList = Values<Toxic>;

#[derive(Clone, Copy)]
pub(crate) struct TextsRead<'a> {
    pub(crate) type_text: &'a str,
    pub(crate) name: &'a str,
    pub(crate) stream: &'a str,
}

#[derive(Clone, Copy)]
pub(crate) struct AcceptedToxic<'a> {
    pub(crate) name: &'a str,
    pub(crate) stream: Stream,
    pub(crate) toxic: Toxic,
}

fn toxic_fields(value: &Value) -> Option<TextsRead<'_>>
    ensures { option_map seen_texts result ≡ toxic_fields (view value.now) }
{
    let type_text = required_text(value, "type")?;
    let name = optional_text(value, "name")?;
    let stream = optional_text(value, "stream")?;
    if !is_object_or_absent(value, "attributes") {
        return None;
    }
    Some(TextsRead {
        type_text,
        name,
        stream,
    })
}

fn has_name(names: &[&str], name: &str) -> bool
    ensures { result ≡ list_any (λ taken. bytes_eq taken.now name.now) names.now }
{
    names.iter().any(|taken| *taken == name)
}

fn rated(kind: Kind, value: &Value) -> Option<Toxic>
    ensures { result ≡ option_and_then (made_toxic kind) (ppm_of (view value.now)) }
{
    Toxic::new(kind, ppm_of(value)?)
}

// The toxics that were read: all names in the order of the file, and the toxics of each direction.
#[derive(Drop)]
pub(crate) struct ToxicsSoFar<'a> {
    names: Vec<&'a str>,
    up: Vec<Toxic>,
    down: Vec<Toxic>,
}

impl<'a> Model for ToxicsSoFar<'a> {
    ghost use Rattle.std.specs.Prelude.{map};
    ghost use Rattle.scenarios.specs.ToxicsInFiles.{ToxicsRead};

    ghost Value = { ToxicsRead };

    ghost view = { λ t. record { names = map (λ n. n.now) t.names.items; up = t.up.items; down = t.down.items } };
}

impl<'a> ToxicsSoFar<'a> {
    ghost use Rattle.std.specs.Prelude.{◌≡◌, Some, length, OnOk};
    ghost use Rattle.serde_json.specs.View.{view};
    ghost use Rattle.lists.specs.Agreement.{Agrees};
    ghost use Rattle.scenarios.specs.ToxicsInFiles.{direction, is_name_taken, checked_toxic, toxic_in, no_toxics};
    ghost use Rattle.scenarios.specs.SeenFields.{seen_toxic, after_accepted};

    fn new(alloc: Global) -> ToxicsSoFar<'a>
        ensures { result ≡ no_toxics }
    {
        ToxicsSoFar {
            names: Vec::new(alloc),
            up: Vec::new(alloc),
            down: Vec::new(alloc),
        }
    }

    fn count(&self, stream: Stream) -> usize
        ensures { result ≡ length (direction stream self.now) }
    {
        match stream {
            Stream::Upstream => self.up.len(),
            Stream::Downstream => self.down.len(),
        }
    }

    #[tactic(auto, using(crate::proofs::MappedNames::any_mapped))]
    fn has_name(&self, name: &str) -> bool
        ensures { result ≡ is_name_taken self.now.names name.now }
    {
        has_name(&self.names, name)
    }

    #[tactic(auto, unfolding(crate::specs::ToxicsInFiles::checked_toxic))]
    fn check(
        &self,
        name: &'a str,
        stream: Stream,
        toxic_type: ToxicType,
        value: &Value,
    ) -> Result<AcceptedToxic<'a>, Cause>
        ensures { Agrees (λ cause. Some cause) seen_toxic result (checked_toxic self.now name.now stream toxic_type (view value.now)) }
    {
        if self.has_name(name) {
            return Err(Cause::DuplicateToxic);
        }
        let kind = kind_in_range(toxic_type, value).ok_or(Cause::AttributeRange)?;
        let toxic = rated(kind, value).ok_or(Cause::BadToxicity)?;
        if self.count(stream) >= TOXIC_LIMIT {
            return Err(Cause::TooMany);
        }
        Ok(AcceptedToxic {
            name,
            stream,
            toxic,
        })
    }

    #[tactic(auto, unfolding(crate::specs::ToxicsInFiles::toxic_in))]
    fn look_at(&self, value: &'a Value) -> Result<AcceptedToxic<'a>, Cause>
        ensures { Agrees (λ cause. Some cause) seen_toxic result (toxic_in self.now (view value.now)) }
    {
        let fields = toxic_fields(value).ok_or(Cause::BadMember)?;
        let toxic_type = toxic_type(fields.type_text).ok_or(Cause::UnknownToxic)?;
        let stream = stream_named(fields.stream).ok_or(Cause::BadStream)?;
        let name = name_of(fields.name, toxic_type, stream);
        self.check(name, stream, toxic_type, value)
    }

    pub(crate) fn into_lists(self) -> (ToxicList, ToxicList)
        ensures up { result.0 ≡ self.entry.up }
        ensures down { result.1 ≡ self.entry.down }
    {
        let ToxicsSoFar { up, down, .. } = self;
        (ToxicList::of(up), ToxicList::of(down))
    }

    fn push(&mut self, accepted: AcceptedToxic<'a>) -> Result<(), AllocError>
        ensures { OnOk result (self.new ≡ after_accepted self.old accepted.entry) }
    {
        self.names.push(accepted.name)?;
        match accepted.stream {
            Stream::Upstream => self.up.push(accepted.toxic)?,
            Stream::Downstream => self.down.push(accepted.toxic)?,
        }
        Ok(())
    }
}

#[tactic(auto, unfolding(crate::specs::ToxicsInFiles::toxics_from))]
pub(crate) fn read_toxics(
    alloc: Global,
    proxy: usize,
    items: &[Value],
) -> Result<ToxicsSoFar<'_>, ScenarioFault>
    ensures { AgreesUnlessMemory scenario_refusal (λ t. t) result (toxics_from proxy no_toxics (items_view items.now)) }
{
    let mut read = ToxicsSoFar::new(alloc);
    for value in items {
        let accepted = match read.look_at(value) {
            Ok(accepted) => accepted,
            Err(cause) => {
                let number = read.names.len();
                return Err(ScenarioFault::Refused(Refusal::of_toxic(proxy, number, cause)));
            }
        };
        read.push(accepted)?;
    }
    Ok(read)
}
