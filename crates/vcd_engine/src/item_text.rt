//! The text of kept items: the line of each, after the line of its time unless that was written
//! last.
ghost use Rattle.std.specs.Prelude.{◌≡◌, ℕ, ◌-◌, ◌^◌, ◌<◌, ◌∷◌, [], List, Some, IfOk};
ghost use Rattle.vcd_engine.specs.Names.{as_line, BodyItem, closing, Counts, Entry, HasGoodText, HasWritten, Header, IsItem, IsLine, IsNextItem, IsPart, IsViewOf, item_line, keyword_text, LastTells, may_be_kept, model_section, PutsBehind, PutsEntry, PutsCopy, PutsWhere, section_keyword, TakenBy, Takes, time_due, times_with};

use crate::pending::PendingCopy;
use crate::task_state::walk::KnownLine;
use vcd_body::{Id, Item, Regs, ScannedItem, Section, left_out, put_change, put_time_unless};
use vcd_text::{Sink, WriteFailed, put};
use vcd_view::HeadView;

/// The state of the text of kept items: the time whose line was written last.
#[derive(Clone, Copy)]
pub(crate) struct ItemText {
    written: Option<u64>,
}

/// Returns the line that begins a section of this kind: its keyword and a line feed.
fn begin_line(section: Section) -> &'static [u8]
    ensures { result.now ≡ as_line (keyword_text (section_keyword (model_section section))) }
{
    match section {
        Section::Vars => b"$dumpvars\n",
        Section::Off => b"$dumpoff\n",
        Section::On => b"$dumpon\n",
        Section::All => b"$dumpall\n",
    }
}

/// Writes the line of a change, or of the begin or end of a section. Writes nothing for a timestamp
/// and for the end of the body. `text` is a change's text; for other items it may be anything.
/// Fails if a write does.
#[inline(always)]
fn put_item<W: Sink>(
    view: HeadView<'_>,
    item: Item,
    text: &[u8],
    out: &mut W,
) -> Result<(), WriteFailed>
    requires failures { (W.device out.old).failures < 2 ^ 64 - 1 }
    requires sound { HasGoodText view.codes.now text.now item }
    ensures { PutsWhere W.device out.old out.new result (λ takes. (h : Header) (x : BodyItem)
        → IsViewOf view.entry h → IsItem h.codes text.now item x → takes (item_line x)) }
{
    match item {
        Item::Time(_) | Item::Finish => Ok(()),
        Item::Begin(section) => put(out, begin_line(section)),
        Item::End => put(out, b"$end\n"),
        Item::Change { code, form } => {
            let code = view.codes[code];
            let id = view.text_at(code.start, code.len as usize);
            put_change(code.size, code.event, form, text, Id::Own(id), out)
        }
    }
}

/// Returns whether the output may have this item: a section's begin or end, or a change, but not of
/// an event inside a section. It is false for a timestamp, whose line is written by itself, and for
/// the end of the body. `regs` are the registers after the item.
#[inline(always)]
pub(crate) fn may_keep(view: HeadView<'_>, regs: Regs, item: Item) -> bool
    ensures { result ≡ may_be_kept view.entry regs item }
{
    match item {
        Item::Time(_) | Item::Finish => false,
        Item::Begin(_) | Item::End => true,
        Item::Change { code, .. } => !(regs.section.is_some() && view.is_event(code)),
    }
}

impl ItemText {
    /// Returns what is kept of the written text before all items: no line of a time was written.
    pub(crate) fn new() -> ItemText
        ensures { HasWritten [] [] result }
    {
        ItemText { written: None }
    }

    /// Returns what is kept of the written text once the line of `time` was written last.
    pub(crate) fn after_time(time: u64) -> ItemText
        ensures { HasWritten (time ∷ []) [] result }
    {
        ItemText {
            written: Some(time),
        }
    }

    /// Writes the line of `time`, unless it is the time whose line was written last, and then the
    /// line of an item. `text` is a change's text; for other items it may be anything. Fails if a
    /// write does.
    #[inline(always)]
    fn put_with_time<W: Sink>(
        &mut self,
        view: HeadView<'_>,
        time: u64,
        item: Item,
        text: &[u8],
        out: &mut W,
    ) -> Result<(), WriteFailed>
        requires failures { (W.device out.old).failures < 2 ^ 64 - 1 }
        requires sound { HasGoodText view.codes.now text.now item }
        ensures text { PutsEntry (λ due. Takes (W.device out.old) (W.device out.new) due result)
            view.entry time item text.now self.old self.new result }
        ensures counts { Counts (W.device out.old) (W.device out.new) result }
    {
        put_time_unless(self.written, time, out)?;
        self.written = Some(time);
        put_item(view, item, text, out)
    }

    /// Queues the line of `time`, unless it is the time whose line was queued last, and the line of
    /// an item. Lines that the chunk already has as they would be written become part of `pending`;
    /// otherwise `pending` is written, and then the line. `line` says where the chunk has the line
    /// of `time`, if that is known. Fails if a write does.
    #[inline(always)]
    pub(crate) fn queue<W: Sink>(
        &mut self,
        view: HeadView<'_>,
        time: u64,
        scanned: ScannedItem<'_>,
        line: &KnownLine,
        pending: &mut PendingCopy,
        out: &mut W,
    ) -> Result<(), WriteFailed>
        requires failures { (W.device out.old).failures < 2 ^ 64 - 1 }
        requires next { IsNextItem view scanned }
        requires line { IsLine scanned.bytes.now (line.now.from, line.now.to) time }
        requires part { IsPart scanned.bytes.now pending.old }
        ensures text { PutsEntry (λ due. PutsCopy scanned.entry.bytes.now pending.old pending.new
            (W.device out.old) (W.device out.new) due result) view.entry time
            scanned.entry.item scanned.entry.text.now self.old self.new result }
        ensures counts { Counts (W.device out.old) (W.device out.new) result }
        ensures part { IfOk result (λ _. IsPart scanned.entry.bytes.now pending.new) }
    {
        let bytes = scanned.bytes;
        let Some(n) = left_out(scanned) else {
            pending.flush(bytes, out)?;
            return self.put_with_time(view, time, scanned.item, scanned.text, out);
        };
        self.queue_time(time, bytes, line, pending, out)?;
        pending.queue_line(bytes, scanned.begin, scanned.end, n, out)
    }

    /// Queues the line of `time`, unless it is the time whose line was queued last: in `pending` if
    /// `line` says where the chunk `bytes` has it, otherwise it writes `pending` and then the line.
    /// Fails if a write does.
    #[inline(always)]
    fn queue_time<W: Sink>(
        &mut self,
        time: u64,
        bytes: &[u8],
        line: &KnownLine,
        pending: &mut PendingCopy,
        out: &mut W,
    ) -> Result<(), WriteFailed>
        requires failures { (W.device out.old).failures < 2 ^ 64 - 1 }
        requires line { IsLine bytes.now (line.now.from, line.now.to) time }
        requires part { IsPart bytes.now pending.old }
        ensures puts { PutsBehind bytes.now pending.old pending.new
            (W.device out.old) (W.device out.new) (time_due self.old.written time) result }
        ensures written { IfOk result (λ _. self.new.written ≡ Some time) }
    {
        if self.written == Some(time) {
            return Ok(());
        }
        self.written = Some(time);
        pending.queue_time(time, bytes, line.from, line.to, out)
    }

    /// Writes the line of `last`, the time of the last timestamp, at the end of the output. Writes
    /// nothing if it is `None` (there was no timestamp), or if its line was written last. Fails if
    /// a write does.
    pub(crate) fn close<W: Sink>(&self, last: Option<u64>, out: &mut W) -> Result<(), WriteFailed>
        requires { (W.device out.old).failures < 2 ^ 64 - 1 }
        ensures takes { (before : List ℕ) (kept : List Entry) → HasWritten before kept self.now
            → ((t : ℕ) → last ≡ Some t → LastTells (times_with before kept) t)
            → TakenBy W.device out.old out.new (closing (times_with before kept) last) result }
        ensures counts { Counts (W.device out.old) (W.device out.new) result }
    {
        match last {
            Some(time) => put_time_unless(self.written, time, out),
            None => Ok(()),
        }
    }
}
