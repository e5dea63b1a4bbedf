// The items of a body, one after the other.
ghost use Rattle.std.specs.Prelude.{◌≡◌, ◌≢◌, ◌-◌, ◌^◌, ◌<◌, ◌≤◌, List, OnOk, IfOk, Some, false};
ghost use Rattle.vcd_body.specs.Names.{Advances, AreRegsPast, AreRegsWith, Begins, Code, EndsUnread, HoldsItem, IsGoodChange, IsGoodPhrase, ReadsCommand, ReadsItem, ReadsOne, ahead_of, call_end, is_comment, limit_of, seen, source_of, text_of, token_of};

use crate::ahead::pass_comments;
use crate::fault::BodyFault;
use crate::item::{Form, Item, Regs};
use crate::phrases::{read_real, read_timestamp, read_vector, scalar_code, skip_comment};
use crate::tokens::next_token;
use crate::words::{KeywordUse, PhraseKind, first_byte_of, keyword_use_of, phrase_kind, rest_of};
use vcd_text::{Feed, Source};
use vcd_view::HeadView;

/// Reads the rest of a phrase whose first token, which the feed has read, begins no value change
/// and no timestamp, and sets the open section of `regs`. Returns the begin or the end of a
/// section, or `None` for a comment. Fails if the token is no keyword of a body or may not come
/// here, and if a comment does not end.
#[inline(always)]
fn read_command<S: Source>(
    feed: &mut Feed<'_, '_, '_, '_, S>,
    regs: &mut Regs,
) -> Result<Option<Item>, BodyFault>
    requires failures { S.failures (source_of feed.old) < 2 ^ 64 - 1 }
    requires begins { Begins (token_of feed.old).bytes PhraseKind.Other }
    ensures reads { ReadsCommand feed.old feed.new regs.old regs.new result }
    ensures sound { (codes : List Code) → IsGoodPhrase codes feed.new result }
    ensures ahead { is_comment (token_of feed.old).bytes ≡ false
        → EndsUnread feed.old feed.new result }
    ensures regs { AreRegsPast regs.old regs.new result }
    ensures advances { Advances S.failures feed.old feed.new (call_end result) }
    ensures further { OnOk result (seen feed.old ≤ seen feed.new) }
    ensures bounded { seen feed.old < 2 ^ 63 → seen feed.new < 2 ^ 63 }
{
    match keyword_use_of(feed.token()) {
        Some(KeywordUse::Comment) => {
            skip_comment(feed)?;
            Ok(None)
        }
        Some(KeywordUse::Begin(section)) => {
            if regs.section.is_some() {
                return Err(BodyFault::OutOfPlace);
            }
            regs.section = Some(section);
            Ok(Some(Item::Begin(section)))
        }
        Some(KeywordUse::End) => {
            if regs.section.is_some() {
                regs.section = None;
                return Ok(Some(Item::End));
            }
            Err(BodyFault::OutOfPlace)
        }
        Some(KeywordUse::OfHeader) => Err(BodyFault::OutOfPlace),
        None => Err(BodyFault::UnknownCommand),
    }
}

/// Reads the next phrase of a body, and sets `regs` (the last time, the open section) to what holds
/// after it. Returns its item, `Item::Finish` at the end of the input, or `None` for a comment.
/// Fails with the fault of the first token that is not allowed or cannot be read, and if the input
/// ends inside a section.
#[inline(always)]
fn read_phrase<S: Source>(
    feed: &mut Feed<'_, '_, '_, '_, S>,
    view: HeadView<'_>,
    regs: &mut Regs,
) -> Result<Option<Item>, BodyFault>
    requires failures { S.failures (source_of feed.old) < 2 ^ 64 - 1 }
    ensures reads { ReadsOne view.entry feed.old feed.new regs.old regs.new result }
    ensures sound { IsGoodPhrase view.entry.codes.now feed.new result }
    ensures ahead { HoldsItem (limit_of feed.old) (ahead_of feed.old)
        → EndsUnread feed.old feed.new result }
    ensures regs { AreRegsPast regs.old regs.new result }
    ensures advances { Advances S.failures feed.old feed.new (call_end result) }
    ensures progress { IfOk result (λ one. one ≢ Some Item.Finish → seen feed.old < seen feed.new) }
    ensures bounded { seen feed.new < 2 ^ 63 }
{
    if !next_token(feed)? {
        if regs.section.is_some() {
            return Err(BodyFault::EndOfInput);
        }
        return Ok(Some(Item::Finish));
    }
    let token = feed.token();
    let item = match phrase_kind(token) {
        PhraseKind::Bit | PhraseKind::Scalar => Item::Change {
            code: scalar_code(token, view)?.position,
            form: Form::Scalar,
        },
        PhraseKind::Vector => Item::Change {
            code: read_vector(feed, view)?,
            form: Form::Vector,
        },
        PhraseKind::Timestamp => Item::Time(read_timestamp(token, regs)?),
        PhraseKind::Real => Item::Change {
            code: read_real(feed, view)?,
            form: Form::RealText,
        },
        PhraseKind::Other => return read_command(feed, regs),
    };
    Ok(Some(item))
}

/// Reads the next item of a body, and sets `regs` (the last time, the open section) to what holds
/// after it. Returns `Item::Finish` at the end of the input. At first the feed has to be right
/// after the header of `view`, and `regs` is `Regs::new()`. Fails with the fault of the first token
/// that is not allowed or cannot be read, and if the input ends inside a section; do not call it
/// again after that.
#[inline(always)]
pub fn next_item<S: Source>(
    feed: &mut Feed<'_, '_, '_, '_, S>,
    view: HeadView<'_>,
    regs: &mut Regs,
) -> Result<Item, BodyFault>
    requires failures { S.failures (source_of feed.old) < 2 ^ 64 - 1 }

    // The item that is returned comes after the items given so far. At the end they are all items
    // of the body, and it has no fault. A fault is the body's, after exactly these items.
    ensures reads { ReadsItem view.entry feed.old feed.new regs.old regs.new result }

    // A change is of one of the view's codes, and its text is one that this code may have.
    ensures sound { IfOk result (IsGoodChange view.entry.codes.now feed.new) }

    // An item that lies completely in the chunk is taken without a read.
    ensures ahead { HoldsItem (limit_of feed.old) (ahead_of feed.old)
        → source_of feed.new ≡ source_of feed.old }
    ensures regs { AreRegsWith (λ item. item) regs.old regs.new result }
    ensures advances { Advances S.failures feed.old feed.new (call_end result) }
    ensures progress { IfOk result (λ item. item ≢ Item.Finish → seen feed.old < seen feed.new) }
    ensures bounded { seen feed.new < 2 ^ 63 }
{
    'phrases: loop {
        if let Some(item) = read_phrase(feed, view, regs)? {
            return Ok(item);
        }
        pass_comments(feed);
    }
}

/// Returns the text of a change that `next_item` returned last: its digits, or the text of the real
/// number. `form` is the one that `next_item` returned.
pub fn change_text<'f, S: Source>(feed: &'f Feed<'_, '_, '_, '_, S>, form: Form) -> &'f [u8]
    ensures { result.now ≡ text_of form feed.now }
{
    match form {
        Form::Scalar => first_byte_of(feed.token()),
        Form::Vector | Form::RealText => rest_of(feed.value()),
    }
}
