ghost use Rattle.std.specs.Prelude.{◌≡◌, ◌++◌, ◌<◌, ◌^◌, Some, IfOk, OnErr, OnOk, drop, take, length};
ghost use Rattle.oi_target_login.specs.Grown.{IsGrown};
ghost use Rattle.oi_target_login.specs.Texts.{text_pairs};
ghost use Rattle.oi_target_session.specs.Answers.{bytes_of, text_pdu};
ghost use Rattle.oi_target_session.specs.Listings.{listing_of, listing_text};
ghost use Rattle.oi_target_session.specs.Sequences.{AreLimits};
ghost use Rattle.oi_target_session.specs.Sessions.{text_kept, text_read, text_sent, texted, texted_with};

use crate::answers::{NO_TAG, text_pdu};
use crate::fed::Fed;
use crate::limits::Limits;
use crate::session::Session;
use oi_base::{Blob, NoMemory};
use oi_pdu::{TextRequest, write_pdu};
use oi_sendtargets::{Found, write_targets};
use oi_target_login::{put, read_text};
use oi_text::Pair;
use std::alloc::Global;
use std::mem;

const MOST_TEXT: usize = 65_536;

fn put_listing(listing: &[Found], pair: &Pair, out: &mut Vec<u8>) -> Result<(), NoMemory>
    ensures { OnOk result (out.new.items ≡ out.old.items ++ listing_of listing.now pair.now) }
{
    if pair.key.as_slice() != b"SendTargets".as_slice() {
        return put(pair.key.as_slice(), b"NotUnderstood", out);
    }
    if pair.value.as_slice() != b"All".as_slice() {
        return put(b"SendTargets", b"Reject", out);
    }
    write_targets(listing, out)
}

fn listing_text(alloc: Global, listing: &[Found], pairs: &[Pair]) -> Result<Vec<u8>, NoMemory>
    ensures { IfOk result (λ text. text.items ≡ listing_text listing.now pairs.now) }
{
    let mut text = Vec::new(alloc);
    for pair in pairs {
        put_listing(listing, pair, &mut text)?;
    }
    Ok(text)
}

// So much of a text as the initiator takes at once.
fn front(alloc: Global, text: &[u8], limits: Limits) -> Result<Blob, NoMemory>
    requires { AreLimits limits }
    ensures value { IfOk result (λ b. b ≡ take limits.max_send text.now) }
    ensures size { IfOk result (λ b. length b < 2 ^ 24) }
{
    let count = text.len().min(limits.max_send as usize);
    Blob::from_slice(alloc, &text[..count])
}

// What is left of it.
fn rest(alloc: Global, text: &[u8], limits: Limits) -> Result<Blob, NoMemory>
    ensures { IfOk result (λ b. b ≡ drop limits.max_send text.now) }
{
    let count = text.len().min(limits.max_send as usize);
    Blob::from_slice(alloc, &text[count..])
}

impl Session {
    fn keep_text(&mut self, h: TextRequest, text: Blob, out: &mut Vec<u8>) -> Result<Fed, NoMemory>
        ensures session { OnOk result (self.new ≡ (text_kept self.old h text).session) }
        ensures out { OnOk result (out.new.items ≡ out.old.items ++ bytes_of (text_kept self.old h text).sent) }
        ensures fed { IfOk result (λ f. f ≡ (text_kept self.old h text).fed) }
        ensures kept { OnErr result (IsGrown out.old.items out.new.items) }
    {
        let none = Blob::new(self.alloc);
        write_pdu(&text_pdu(self.numbers, h.tag, false, true, none), out)?;
        self.numbers = self.numbers.after_status();
        self.text = text;
        Ok(Fed::Going)
    }

    // Sends the front of this text, and keeps the rest.
    fn send_text(&mut self, h: TextRequest, text: &[u8], out: &mut Vec<u8>) -> Result<Fed, NoMemory>
        ensures session { OnOk result (self.new ≡ (text_sent self.old h text.now).session) }
        ensures out { OnOk result (out.new.items ≡ out.old.items ++ bytes_of (text_sent self.old h text.now).sent) }
        ensures fed { IfOk result (λ f. f ≡ (text_sent self.old h text.now).fed) }
        ensures kept { OnErr result (IsGrown out.old.items out.new.items) }
    {
        let payload = front(self.alloc, text, self.limits)?;
        let more = (self.limits.max_send as usize) < text.len();
        write_pdu(&text_pdu(self.numbers, h.tag, more, more, payload), out)?;
        self.numbers = self.numbers.after_status();
        self.text = Blob::new(self.alloc);
        self.left = rest(self.alloc, text, self.limits)?;
        Ok(Fed::Going)
    }

    fn read_request(
        &mut self,
        listing: &[Found],
        h: TextRequest,
        text: &[u8],
        out: &mut Vec<u8>,
    ) -> Result<Fed, NoMemory>
        ensures session { OnOk result (self.new ≡ (text_read self.old listing.now h (text_pairs text.now)).session) }
        ensures out { OnOk result (out.new.items ≡ out.old.items ++ bytes_of (text_read self.old listing.now h (text_pairs text.now)).sent) }
        ensures fed { IfOk result (λ f. f ≡ (text_read self.old listing.now h (text_pairs text.now)).fed) }
        ensures kept { OnErr result (IsGrown out.old.items out.new.items) }
    {
        let Some(pairs) = read_text(self.alloc, text)? else {
            return Ok(Fed::Closed);
        };
        let answer = listing_text(self.alloc, listing, pairs.as_slice())?;
        self.send_text(h, &answer, out)
    }

    fn text_with(
        &mut self,
        listing: &[Found],
        h: TextRequest,
        text: Blob,
        out: &mut Vec<u8>,
    ) -> Result<Fed, NoMemory>
        ensures session { OnOk result (self.new ≡ (texted_with self.old listing.now h text).session) }
        ensures out { OnOk result (out.new.items ≡ out.old.items ++ bytes_of (texted_with self.old listing.now h text).sent) }
        ensures fed { IfOk result (λ f. f ≡ (texted_with self.old listing.now h text).fed) }
        ensures kept { OnErr result (IsGrown out.old.items out.new.items) }
    {
        if MOST_TEXT < text.as_slice().len() {
            return Ok(Fed::Closed);
        }
        if h.more {
            return self.keep_text(h, text, out);
        }
        if text.as_slice().is_empty() && h.ttt != NO_TAG {
            let left = mem::replace(&mut self.left, Blob::new(self.alloc));
            return self.send_text(h, left.as_slice(), out);
        }
        self.read_request(listing, h, text.as_slice(), out)
    }

    /// A Text Request of a discovery (RFC 7143, section 11.10).
    pub(crate) fn text(
        &mut self,
        listing: &[Found],
        h: TextRequest,
        payload: &[u8],
        out: &mut Vec<u8>,
    ) -> Result<Fed, NoMemory>
        ensures session { OnOk result (self.new ≡ (texted self.old listing.now h payload.now).session) }
        ensures out { OnOk result (out.new.items ≡ out.old.items ++ bytes_of (texted self.old listing.now h payload.now).sent) }
        ensures fed { IfOk result (λ f. f ≡ (texted self.old listing.now h payload.now).fed) }
        ensures kept { OnErr result (IsGrown out.old.items out.new.items) }
    {
        let mut text = Vec::from_slice(self.alloc, self.text.as_slice())?;
        text.extend_from_slice(payload)?;
        self.text_with(listing, h, Blob::from_vec(text), out)
    }
}
