//! Sources of requests and destinations of replies.
ghost use Rattle.std.specs.Prelude.{◌≡◌, ◌≤◌, ℕ, Bool, List, [], ◌∷◌, Option, length, take, true, IfSome, IfNone, MatchOption};
ghost use Rattle.std.specs.Bool.{OnTrue, OnFalse};
ghost use Rattle.vol_serve.specs.Messages.{Grows};

/// A source of requests.
pub trait Requests {
    // the requests taken so far, in order, if they are known
    ghost taken: { Self → Option (List (List ℕ)) };

    // true if there are no more requests
    ghost has_ended: { Self → Bool };

    /// Waits for a request, puts it at the beginning of `buffer`, and returns its length in bytes, or `None` if there are no more requests.
    fn take(&mut self, buffer: &mut [u8]) -> Option<usize>
        ensures bound { IfSome result (λ count. count ≤ length buffer.new) }
        ensures taken { MatchOption result (Grows (taken self.old) (taken self.new) [])
            (λ count. Grows (taken self.old) (taken self.new) (take count buffer.new ∷ [])) }
        ensures ended { IfNone result (has_ended self.new ≡ true) };
}

/// A destination of replies.
pub trait Replies {
    // the replies sent so far, in order, if they are known
    ghost sent: { Self → Option (List (List ℕ)) };

    // true if a reply couldn't be sent
    ghost has_failed: { Self → Bool };

    /// Sends one whole reply; returns false if it couldn't be sent.
    fn send(&mut self, reply: &[u8]) -> bool
        ensures sent { OnTrue result (Grows (sent self.old) (sent self.new) (reply.now ∷ [])) }
        ensures kept { OnFalse result (Grows (sent self.old) (sent self.new) []) }
        ensures failed { OnFalse result (has_failed self.new ≡ true) };
}
