//! What the Olympus keeps about one host: its decided log, and what guards reported.

ghost use Rattle.std.specs.Prelude.{◌≡◌, ◌<◌, ◌≤◌, ◌==◌, ◌++◌, ◌∷◌, [], ℕ, fold, length, drop, IfOk, OnOk, option_copied};
ghost use Rattle.std.specs.List.{list_any};
ghost use Rattle.nys_rules.specs.Olympus.{reports_for, supported_after, with_report};
ghost use Rattle.nys_source.specs.Tables.{lists_at, put};
ghost use Rattle.nys_votes.specs.Contents.{same_content};

use nys_bytes::{Content, NoMemory};
use nys_stmt::Tags;
use std::alloc::Global;
use std::marker::Model;

/// The decided log of a host. Contracts see the list of its entries.
#[derive(Drop)]
pub(crate) struct DecidedLog {
    held: Vec<Content>,
}

impl Model for DecidedLog {
    ghost use Rattle.std.specs.Prelude.{List};
    ghost use Rattle.nys_bytes.specs.declared.content.Content.{Content};

    ghost Value = { List Content };

    ghost view = { λ l. l.held.items };
}

impl DecidedLog {
    /// No entry yet. Takes no memory.
    pub(crate) fn new(alloc: Global) -> DecidedLog
        ensures { result ≡ [] }
    {
        DecidedLog {
            held: Vec::new(alloc),
        }
    }

    /// The entries, the oldest first.
    pub(crate) fn items(&self) -> &[Content]
        ensures { result.now ≡ self.now }
    {
        self.held.as_slice()
    }

    /// Appends the entries, in order.
    pub(crate) fn extend(&mut self, contents: Vec<Content>) -> Result<(), NoMemory>
        ensures { OnOk result (self.new ≡ self.old ++ contents.items) }
    {
        append(&mut self.held, contents)
    }
}

fn append(held: &mut Vec<Content>, contents: Vec<Content>) -> Result<(), NoMemory>
    ensures { OnOk result (held.new.items ≡ held.old.items ++ contents.items) }
{
    for content in contents {
        held.push(content)?;
    }
    Ok(())
}

/// A guard's first report for a slot.
#[derive(Drop)]
pub(crate) struct FirstReport {
    guard: u32,
    content: Content,
}

impl Model for FirstReport {
    ghost use Rattle.nys_rules.specs.Olympus.{Reported};

    ghost Value = { Reported };

    ghost view = { λ r. record { guard = r.guard; content = r.content } };
}

impl FirstReport {
    fn is_of(&self, guard: u32) -> bool
        ensures { result ≡ (self.now.guard == guard) }
    {
        self.guard == guard
    }

    #[tactic(auto)]
    fn is_for(&self, content: &Content) -> bool
        ensures { result ≡ same_content content.now self.now.content }
    {
        content.equals(&self.content)
    }

    fn content(&self) -> &Content
        ensures { result.now ≡ self.now.content }
    {
        &self.content
    }
}

/// How many of the reports are of the content.
fn count_for(reports: &[FirstReport], content: &Content) -> usize
    ensures { result ≡ reports_for content.now reports.now }
{
    let mut count = 0;
    for report in reports {
        if report.is_for(content) {
            count += 1;
        }
    }
    count
}

/// The first reports of guards for one slot, in the order in which they came.
#[derive(Drop)]
pub(crate) struct SlotReports {
    held: Vec<FirstReport>,
}

impl Model for SlotReports {
    ghost use Rattle.std.specs.Prelude.{List};
    ghost use Rattle.nys_rules.specs.Olympus.{Reported};

    ghost Value = { List Reported };

    ghost view = { λ r. r.held.items };
}

impl SlotReports {
    fn new(alloc: Global) -> SlotReports
        ensures { result ≡ [] }
    {
        SlotReports {
            held: Vec::new(alloc),
        }
    }

    /// Whether the guard has reported.
    fn has(&self, guard: u32) -> bool
        ensures { result ≡ list_any (λ r. r.guard == guard) self.now }
    {
        for report in &self.held {
            if report.is_of(guard) {
                return true;
            }
        }
        false
    }

    /// A guard's report, unless it has reported.
    fn note(&mut self, alloc: Global, content: &Content, maker: &Tags) -> Result<(), NoMemory>
        ensures { OnOk result (self.new ≡ with_report content.now self.old maker.now) }
    {
        if self.has(maker.maker) {
            return Ok(());
        }
        let content = content.copy(alloc)?;
        self.held.push(FirstReport {
            guard: maker.maker,
            content,
        })?;
        Ok(())
    }

    /// The report of each of these makers, in order.
    pub(crate) fn note_all(
        &mut self,
        alloc: Global,
        content: &Content,
        makers: &[Tags],
    ) -> Result<(), NoMemory>
        ensures { OnOk result (self.new ≡ fold (with_report content.now) self.old makers.now) }
    {
        for maker in makers {
            self.note(alloc, content, maker)?;
        }
        Ok(())
    }

    /// The content that more than `t` guards reported; of several the one that had so many first.
    fn supported(&self, t: u32) -> Option<&Content>
        ensures { option_copied result ≡ supported_after t [] self.now }
    {
        for i in 0..self.held.len() {
            let content = self.held[i].content();
            if (t as usize) < count_for(&self.held[..i + 1], content) {
                return Some(content);
            }
        }
        None
    }
}

/// What guards reported about one host, by slot. Contracts see a list of the reports of each slot.
#[derive(Drop)]
pub(crate) struct Docket {
    slots: Vec<SlotReports>,
}

impl Model for Docket {
    ghost use Rattle.std.specs.Prelude.{List};
    ghost use Rattle.nys_rules.specs.Olympus.{Reported};

    ghost Value = { List (List Reported) };

    ghost view = { λ d. d.slots.items };
}

/// Has a place for the slot.
fn make_room(alloc: Global, slots: &mut Vec<SlotReports>, slot: u32) -> Result<(), NoMemory>
    ensures room { OnOk result (slot < length slots.new.items) }
    ensures same { (s : ℕ) → lists_at slots.new.items s ≡ lists_at slots.old.items s }
{
    while slots.len() <= slot as usize {
        slots.push(SlotReports::new(alloc))?;
    }
    Ok(())
}

impl Docket {
    /// No report yet. Takes no memory.
    pub(crate) fn new(alloc: Global) -> Docket
        ensures { result ≡ [] }
    {
        Docket {
            slots: Vec::new(alloc),
        }
    }

    /// The report of each of these makers for a slot, in order.
    pub(crate) fn note_all(
        &mut self,
        alloc: Global,
        slot: u32,
        content: &Content,
        makers: &[Tags],
    ) -> Result<(), NoMemory>
        ensures { OnOk result ((s : ℕ) → lists_at self.new s
            ≡ put (lists_at self.old) slot
            (fold (with_report content.now) (lists_at self.old slot) makers.now) s) }
    {
        make_room(alloc, &mut self.slots, slot)?;
        self.slots[slot as usize].note_all(alloc, content, makers)
    }

    /// The content that supports the slot.
    pub(crate) fn supported(&self, slot: u32, t: u32) -> Option<&Content>
        ensures { option_copied result ≡ supported_after t [] (lists_at self.now slot) }
    {
        match self.slots.get(slot as usize) {
            Some(reports) => reports.supported(t),
            None => None,
        }
    }
}
