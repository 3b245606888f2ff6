//! How many connections tell what of the toxics of a scenario.
ghost use Rattle.std.specs.Prelude.{◌≡◌, ◌++◌, OnOk, get_or};
ghost use Rattle.effects.specs.EffectCounts.{is_number};
ghost use Rattle.effects.specs.Marks.{no_mark, proxy_marks, toxic_marks};

use crate::marks::{Mark, Under};
use conn_workers::Recording;
use lists::Values;
use std::alloc::AllocError;
use toxic_defs::MetProxy;

impl<'s> Under<'s> {
    ghost use Rattle.std.specs.Prelude.{◌≡◌, ◌≤◌, ◌++◌, IfOk, OnOk, filter, length, map};
    ghost use Rattle.scenarios.specs.Populate.{met_number};
    ghost use Rattle.toxic_defs.specs.DeliveredLines.{met_view};
    ghost use Rattle.toxic_defs.specs.Limits.{most_toxics};
    ghost use Rattle.effects.specs.EffectCounts.{meets, scenario_counts};
    ghost use Rattle.effects.specs.Marks.{marks_of, replay};

    /// Appends the numbers of a scenario: of each proxy how many connections meet it, and of each of its toxics how many of these draw it
    /// and on how many of these it has an effect.
    pub(crate) fn put_counts(
        &self,
        recordings: &[Recording<'_, '_>],
        counts: &mut Vec<u64>,
    ) -> Result<(), AllocError>
        ensures { OnOk result (counts.new.items ≡ counts.old.items
            ++ scenario_counts self.now.seed (map replay recordings.now) (self.now.number, self.now.scenario.now)) }
    {
        let numbers = self.met_numbers(recordings)?;
        for (number, proxy) in self.scenario.proxies().iter().enumerate() {
            let met = MetProxy {
                number: number as u32,
                enabled: proxy.enabled,
                up: proxy.up.as_slice(),
                down: proxy.down.as_slice(),
            };
            let marks = self.proxy_marks(recordings, &numbers, met)?;
            put_proxy(&marks, met.up.len() + met.down.len(), counts)?;
        }
        Ok(())
    }

    // The number of the proxy that each connection meets.
    fn met_numbers(&self, recordings: &[Recording<'_, '_>]) -> Result<Vec<Option<u32>>, AllocError>
        ensures { IfOk result (λ v. v.items ≡ map (λ r. met_number r.conn.server self.now.scenario.now) recordings.now) }
    {
        let numbers = recordings.iter().map(|recording| self
            .scenario
            .proxy_of(recording.conn().server));
        numbers.collect(self.alloc)
    }

    // The marks of the connections that meet a proxy, if these are the numbers of the proxies that connections meet.
    fn proxy_marks(
        &self,
        recordings: &[Recording<'_, '_>],
        numbers: &[Option<u32>],
        met: MetProxy<'_>,
    ) -> Result<Vec<Values<Mark>>, AllocError>
        requires few_up { length met.up.now ≤ most_toxics }
        requires few_down { length met.down.now ≤ most_toxics }
        requires numbers { numbers.now ≡ map (λ r. met_number r.conn.server self.now.scenario.now) recordings.now }
        ensures { IfOk result (λ v. v.items ≡ map (marks_of self.now.seed self.now.number (met_view met.entry))
            (filter (meets self.now.scenario.now met.entry.number) (map replay recordings.now))) }
    {
        let mut marks = Vec::new(self.alloc);
        for (i, recording) in recordings.iter().enumerate() {
            if is_number(numbers[i], met.number) {
                marks.push(Values::of(self.marks(recording, met)?))?;
            }
        }
        Ok(marks)
    }
}

fn is_number(met: Option<u32>, number: u32) -> bool
    ensures { result ≡ is_number number met }
{
    met == Some(number)
}

fn put_proxy(marks: &[Values<Mark>], toxics: usize, counts: &mut Vec<u64>) -> Result<(), AllocError>
    ensures { OnOk result (counts.new.items ≡ counts.old.items ++ proxy_marks marks.now toxics) }
{
    counts.push(marks.len() as u64)?;
    for t in 0..toxics {
        put_toxic(marks, t, counts)?;
    }
    Ok(())
}

fn put_toxic(marks: &[Values<Mark>], t: usize, counts: &mut Vec<u64>) -> Result<(), AllocError>
    ensures { OnOk result (counts.new.items ≡ counts.old.items ++ toxic_marks marks.now t) }
{
    let drawn = marks.iter().filter(|m| mark_at(m, t).drawn).count();
    counts.push(drawn as u64)?;
    let affected = marks.iter().filter(|m| mark_at(m, t).has_effect).count();
    counts.push(affected as u64)?;
    Ok(())
}

fn mark_at(marks: &Values<Mark>, t: usize) -> Mark
    ensures { result ≡ get_or marks.now t no_mark }
{
    match marks.as_slice().get(t) {
        Some(mark) => *mark,
        None => Mark {
            drawn: false,
            has_effect: false,
        },
    }
}
