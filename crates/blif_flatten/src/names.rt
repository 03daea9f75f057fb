// The names of nets, which get their numbers where they are met.
ghost use Rattle.std.specs.Prelude.{◌≡◌, ◌∷◌, ◌++◌, [], map, IfOk, OnOk};
ghost use Rattle.std.specs.Option.{option_to_list};
ghost use Rattle.blif_model.specs.Tokens.{texts_of};
ghost use Rattle.blif_model.specs.Walk.{net_of};
ghost use Rattle.blif_flatten.specs.Numbering.{HaveNumbers};
ghost use Rattle.blif_flatten.specs.Seen.{mentioned_name, scope_at};
ghost use Rattle.blif_flatten.specs.Thinned.{unseen};

use crate::flat::NameId;
use crate::place::{Place, net_in};
use blif_model::bindings::pair_of;
use blif_text::token::Token;
use fm_base::{NameIndex, Seq};
use room::NoRoom;
use std::alloc::Global;

/// How a token mentions a name: it is the name, or the name stands behind its first `=`.
#[derive(Clone, Copy)]
pub enum Mention {
    Whole,
    Actual,
}

/// The name that a token mentions.
fn mentioned<'a>(how: Mention, token: &Token<'a>) -> &'a [u8]
    ensures { result.now ≡ mentioned_name how token.now.text.now }
{
    match how {
        Mention::Whole => token.text,
        Mention::Actual => pair_of(token.text).actual,
    }
}

/// A number goes to the end, where there is one.
fn put_number(ids: &mut Seq<NameId>, id: Option<NameId>) -> Result<(), NoRoom>
    ensures { OnOk result (ids.new ≡ ids.old ++ option_to_list id) }
{
    match id {
        Some(id) => ids.push(id),
        None => Ok(()),
    }
}

/// The names so far, and a buffer in which the names of nets in instances are put together.
#[derive(Drop)]
pub struct NetNames {
    pub alloc: Global,
    pub index: NameIndex,
    pub buffer: Vec<u8>,
}

impl NetNames {
    /// The number of the net of a name.
    pub fn number(&mut self, place: &Place<'_>, name: &[u8]) -> Result<NameId, NoRoom>
        ensures { IfOk result (λ id. HaveNumbers self.old.index self.new.index (net_of (scope_at place.now) name.now ∷ []) (id ∷ [])) }
    {
        let net = net_in(&mut self.buffer, place, name)?;
        let number = self.index.enter(net)?;
        Ok(NameId(number))
    }

    /// The number of the net of a name, where it gets it here.
    fn new_number(&mut self, place: &Place<'_>, name: &[u8]) -> Result<Option<NameId>, NoRoom>
        ensures { IfOk result (λ o. HaveNumbers self.old.index self.new.index (unseen self.old.index (net_of (scope_at place.now) name.now ∷ [])) (option_to_list o)) }
    {
        let known = self.index.len();
        let id = self.number(place, name)?;
        if self.index.len() > known {
            Ok(Some(id))
        } else {
            Ok(None)
        }
    }

    /// The numbers of the nets of names.
    #[tactic(auto, using(crate::proofs::Numbering::numbered_none))]
    pub fn number_all(
        &mut self,
        place: &Place<'_>,
        tokens: &[Token<'_>],
    ) -> Result<Seq<NameId>, NoRoom>
        ensures { IfOk result (HaveNumbers self.old.index self.new.index (map (net_of (scope_at place.now)) (texts_of tokens.now))) }
    {
        let mut ids = Seq::new(self.alloc);
        for token in tokens {
            ids.push(self.number(place, token.text)?)?;
        }
        Ok(ids)
    }

    /// The numbers of those of the nets that get them here, each once.
    pub fn number_new(
        &mut self,
        place: &Place<'_>,
        how: Mention,
        tokens: &[Token<'_>],
    ) -> Result<Seq<NameId>, NoRoom>
        ensures { IfOk result (λ ids. HaveNumbers self.old.index self.new.index (unseen self.old.index (map (λ t. net_of (scope_at place.now) (mentioned_name how t)) (texts_of tokens.now))) ids) }
    {
        let mut ids = Seq::new(self.alloc);
        for token in tokens {
            put_number(&mut ids, self.new_number(place, mentioned(how, token))?)?;
        }
        Ok(ids)
    }
}
