//! The last line of a run that went well: what is easily missed in its reports.
use crate::run::Run;
use hints::{Said, ignored_attribute, shown_path, unit_of};
use std::alloc::AllocError;
use std::net::Ipv4Addr;
use std::rt::Files;
use toxicap::RunSummary;

// Once the text of servers has this number of bytes, further ones are left out.
const SERVERS_LEN: usize = 80;

// A class is told if it has more than one of this number of records.
const RECORDS_EACH: u64 = 10;

impl<R: Files> Run<'_, R> {
    /// What is easily missed in the reports of a run.
    pub fn summed_up(&self, summary: &RunSummary) -> Said {
        let scenarios = self.asked.scenarios.len();
        let start = if scenarios > 1 { "scenario 0: " } else { "" };
        let mut text = String::from_str(self.alloc, start)?;
        put_connections(&mut text, summary)?;
        put_left_out(&mut text, summary)?;
        let is_empty = summary.connections.as_slice().is_empty();
        if scenarios > 0 && !is_empty && summary.met.as_slice().contains(&0) {
            self.put_servers(&mut text, summary)?;
        }
        if let Some(unit) = unit_of(&self.capture_start()?) {
            write!(text, "; times in {unit}")?;
        }
        if let Some(ignored) = self.ignored()? {
            write!(text, "; {ignored}")?;
        }
        Ok(text)
    }

    // The first attribute of the scenarios that is ignored.
    fn ignored(&self) -> Result<Option<String>, AllocError> {
        for path in self.asked.scenarios.iter() {
            let text = self.text_of(path).unwrap_or(Vec::new(self.alloc));
            if let Some(ignored) = ignored_attribute(self.alloc, &text)? {
                let name = shown_path(self.alloc, path)?;
                return say!(self.alloc; "{name}: {ignored}").map(Some);
            }
        }
        Ok(None)
    }

    // The servers of connections, each once; two dots stand for those left out.
    fn put_servers(&self, text: &mut String, summary: &RunSummary) -> Result<(), AllocError> {
        let mut put = Vec::new(self.alloc);
        let mut servers = String::new(self.alloc);
        for connection in summary.connections.as_slice() {
            let server = connection.server;
            if put.as_slice().contains(&server) {
                continue;
            }
            if servers.len() >= SERVERS_LEN {
                servers.push_str(" ..")?;
                break;
            }
            put.push(server)?;
            let addr = Ipv4Addr::from_bits(server.addr);
            write!(servers, " {addr}:{}", server.port)?;
        }
        write!(text, "; servers{servers}")
    }
}

fn put_connections(text: &mut String, summary: &RunSummary) -> Result<(), AllocError> {
    let connections = summary.connections.as_slice().len() as u64;
    let end = plural_end(connections);
    let met = summary.met.as_slice().first().unwrap_or(&0);
    write!(text, "{connections} connection{end}, {met} with a proxy")?;
    for (number, met) in summary.met.as_slice().iter().enumerate().skip(1) {
        if *met == 0 {
            write!(text, "; scenario {number}: 0 with a proxy")?;
        }
    }
    Ok(())
}

// What no connection delivers, and the classes of more than a tenth of the records.
fn put_left_out(text: &mut String, summary: &RunSummary) -> Result<(), AllocError> {
    let mut lost = 0u64;
    for connection in summary.connections.as_slice() {
        let lost_here = connection.up_lost.saturating_add(connection.down_lost);
        lost = lost.saturating_add(lost_here);
    }
    let left_out = [
        (lost, "byte", "lost"),
        (
            u64::from(summary.rest),
            "byte",
            "of a record that is cut off",
        ),
        (summary.unopened, "segment", "without an opening"),
    ];
    for (count, noun, how) in left_out {
        if count > 0 {
            write!(text, "; {count} {noun}{} {how}", plural_end(count))?;
        }
    }
    let (counts, records) = (summary.counts, summary.records);
    let classes = [
        (counts.short, "short"),
        (counts.not_ipv4, "notipv4"),
        (counts.bad_ipv4, "badipv4"),
        (counts.fragment, "fragment"),
        (counts.not_tcp, "nottcp"),
        (counts.cut, "cut"),
        (counts.bad_tcp, "badtcp"),
        (counts.same_ends, "sameends"),
    ];
    for (count, class) in classes {
        if u64::from(count).saturating_mul(RECORDS_EACH) > records as u64 {
            write!(text, "; {count} of {records} records {class}")?;
        }
    }
    Ok(())
}

fn plural_end(count: u64) -> &'static str {
    if count == 1 { "" } else { "s" }
}
