//! A place for one further Alloc-ID, in four octets: rows, answers and entries of journals have eight each.
ghost use Rattle.std.specs.Prelude.{◌≡◌, None, Some};

use std::marker::Model;

/// What stands in a place: in four octets, where an `Option` of the number and a flag takes six.
#[derive(Clone, Copy, Debug, PartialEq, Eq)]
enum Content {
    Nothing,
    Held(u16),
    Leaving(u16),
}

/// A place for one further Alloc-ID of a unit. Contracts see the Alloc-ID, if there is one, and whether it is leaving.
#[derive(Clone, Copy, Debug, PartialEq, Eq)]
pub(crate) struct Place {
    content: Content,
}

impl Model for Place {
    ghost use Rattle.std.specs.Prelude.{ℕ, Bool, Option};
    ghost use Rattle.std.proofs.Common.{ap};
    ghost use Rattle.gp_pools.specs.Places.{alloc_in, content_of, same_content};

    ghost Value = { Option (ℕ × Bool) };

    ghost view = { λ p. alloc_in p.content };

    ghost inverse = { λ alloc. record { content = content_of alloc } };

    ghost inverse_ok = { λ p _. ap (λ content. record { content = content }) (same_content p.content) };
}

impl Place {
    /// A place with no Alloc-ID.
    pub const EMPTY: Place = Place {
        content: Content::Nothing,
    };

    /// Makes a place with this Alloc-ID.
    pub fn with(alloc: u16, leaving: bool) -> Place
        ensures { result ≡ Some (alloc, leaving) }
    {
        let content = if leaving {
            Content::Leaving(alloc)
        } else {
            Content::Held(alloc)
        };
        Place { content }
    }

    /// Gives the Alloc-ID, and whether it is leaving.
    pub fn get(&self) -> Option<(u16, bool)>
        ensures { result ≡ self.now }
    {
        match self.content {
            Content::Nothing => None,
            Content::Held(alloc) => Some((alloc, false)),
            Content::Leaving(alloc) => Some((alloc, true)),
        }
    }
}
