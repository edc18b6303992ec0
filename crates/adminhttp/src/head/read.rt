//! The reader of a head.

ghost use Rattle.std.specs.Prelude.{◌≡◌, length, Err, None, IfSome, IfNone, IfOk, IfErr};
ghost use Rattle.httparse.specs.Grammar.{RequestHead};
ghost use Rattle.httparse.specs.Spans.{IsRequestAt, IsRequestWithin};
ghost use Rattle.office.specs.declared.limits.AdminAccess.{AdminAccess};
ghost use Rattle.adminhttp.specs.Head.{IsHead, IsNoHead, IsLent, most_headers};
ghost use Rattle.adminhttp.specs.Request.{IsRequest};
ghost use Rattle.adminhttp.specs.RequestLines.{IsLine};
ghost use Rattle.adminhttp.specs.Sites.{Site};

use super::{Head, MAX_HEAD, front_of, locate};
use crate::no_command::NoCommand;
use crate::refusal::Refusal;
use httparse::Status;
use httparse::spans::{HeaderSpan, RequestSpans, parse_request};

/// The places of a head's parts; `None` unless the whole text is a head.
fn parse_head(text: &[u8], headers: &mut [HeaderSpan]) -> Option<RequestSpans>
    requires { length headers.old ≡ most_headers }
    ensures within { IfSome result (IsRequestWithin text.now headers.new) }
    ensures some { IfSome result (λ spans. (h : RequestHead)
        × IsRequestAt text.now headers.new spans h × IsHead text.now h) }
    ensures whole { IfSome result (λ spans. spans.len ≡ length text.now) }
    ensures none { IfNone result (IsNoHead text.now) }
{
    match parse_request(text, headers) {
        Ok(Status::Complete(spans)) if spans.len == text.len() => Some(spans),
        _ => None,
    }
}

/// The head of a request, whose headers' spans are put into `headers`.
///
/// [`NoCommand::More`] if it hasn't ended in at most 8,192 octets; [`Refusal::BadRequest`] if
/// it hasn't in more, or is no head of at most 64 headers.
pub fn read_head<'b>(octets: &'b [u8], headers: &mut [HeaderSpan]) -> Result<Head<'b>, NoCommand>
    requires { length headers.old ≡ most_headers }
    ensures ok { IfOk result (IsLent octets.now headers.new) }
    ensures stop { IfErr result (λ stop. (site : Site) (access : AdminAccess)
        → IsRequest site access octets.now (Err stop)) }
    ensures none { IfErr result (λ _. IsLine octets.now None) }
{
    let Some((start, len)) = locate(front_of(octets)) else {
        if octets.len() <= MAX_HEAD {
            return Err(NoCommand::More);
        }
        return Err(NoCommand::Bad(Refusal::BadRequest));
    };
    let text = &octets[start..start + len];
    let Some(spans) = parse_head(text, headers) else {
        return Err(NoCommand::Bad(Refusal::BadRequest));
    };
    Ok(Head {
        text,
        method: spans.method.of(text),
        target: spans.path.of(text),
        headers: spans.headers,
        behind: &octets[start + len..],
    })
}
