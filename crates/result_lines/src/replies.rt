//! The replies of a result that are still to be looked at.

ghost use Rattle.std.specs.Prelude.{◌≡◌, ◌∷◌, [], IfSome, IfNone};

use crate::told::ReplyLine;
use std::marker::Model;

/// Replies of a result, one after another. A contract sees those that are left.
#[derive(Drop)]
pub struct Replies<'a> {
    replies: &'a [ReplyLine<'a>],
    next: usize,
}

impl<'a> Model for Replies<'a> {
    ghost use Rattle.std.specs.Prelude.{List, map, drop};
    ghost use Rattle.result_lines.specs.Told.{ReplyView};

    ghost Value = { List ReplyView };

    ghost view = { λ r. map (λ reply. record { number = reply.number; line = reply.line.now })
        (drop r.next r.replies.now) };
}

impl<'a> Replies<'a> {
    ghost use Rattle.std.specs.Prelude.{map};

    /// All of these.
    pub fn of(replies: &'a [ReplyLine<'a>]) -> Replies<'a>
        ensures { result ≡ map (λ reply. record { number = reply.number; line = reply.line.now })
            replies.now }
    {
        Replies { replies, next: 0 }
    }

    /// The next one.
    pub fn take(&mut self) -> Option<ReplyLine<'a>>
        ensures some { IfSome result (λ reply.
            self.old ≡ record { number = reply.number; line = reply.line.now } ∷ self.new) }
        ensures none { IfNone result ((self.old ≡ []) × (self.new ≡ [])) }
    {
        if self.next >= self.replies.len() {
            return None;
        }
        let reply = self.replies[self.next];
        self.next += 1;
        Some(reply)
    }
}
