//! A session of a script: its catalog has no tables, so contracts see its talk alone.

ghost use Rattle.std.specs.Prelude.{◌≡◌, ℕ, [], Some, IfOk, IfNone, IfSome};
ghost use Rattle.std.specs.Arc.{arc_value};
ghost use Rattle.serde_json.specs.Read.{read};
ghost use Rattle.serde_json.specs.View.{view};
ghost use Rattle.hv_pick.specs.Word.{word_of};
ghost use Rattle.hv_session.specs.Held.{AnswersFirst, replies_of};
ghost use Rattle.hv_session.specs.Talk.{Replies, new_talk};
ghost use Rattle.hv_play.specs.Run.{is_waiting};

use hv_reply::Reply;
use hv_session::{Answer, Seeds, Session};
use hv_value::{Catalog, Mem};
use serde_json::Value;
use std::alloc::Global;
use std::marker::Model;
use std::sync::Arc;

/// A session of a script.
#[derive(Drop)]
pub(crate) struct ScriptSession {
    session: Session,
}

impl Model for ScriptSession {
    ghost use Rattle.std.specs.Coded.{codes};
    ghost use Rattle.hv_lineage.specs.contracts.term.Term as term_row;
    ghost use Rattle.hv_session.specs.Talk.{Talk};
    ghost use Rattle.hv_play.specs.Scripted.{IsScripted};

    ghost Value = { Talk };

    ghost coded = { Prim.hlevel (codes, term_row.the_row.coded) };

    ghost view = { λ s. s.session.talk };

    ghost invariant = { λ s. IsScripted s.session };
}

impl ScriptSession {
    /// A session that has heard nothing, over a catalog of no tables.
    pub(crate) fn new(alloc: Global, catalog: Arc<Catalog>) -> Mem<ScriptSession>
        requires { arc_value catalog ≡ [] }
        ensures { IfOk result (λ session. session ≡ new_talk) }
    {
        let session = Session::new(alloc, catalog)?;
        Ok(ScriptSession { session })
    }

    /// Hears a text, as the session with a number, and gives the replies that are due at once.
    pub(crate) fn hear(&mut self, alloc: Global, number: u32, text: &str) -> Answer
        ensures { Replies [] (word_of 0 number) self.old text.now (replies_of result) self.new }
    {
        self.session.hear(alloc, seeds_of(number), text)
    }

    /// Hears a text that is given with the value that it is read as.
    pub(crate) fn hear_value(
        &mut self,
        alloc: Global,
        number: u32,
        text: &str,
        value: &Value,
    ) -> Answer
        requires { read text.now ≡ Some (view value.now) }
        ensures { Replies [] (word_of 0 number) self.old text.now (replies_of result) self.new }
    {
        self.session
            .hear_value(alloc, seeds_of(number), text, value)
    }

    /// Hears a text for which memory was refused before it could be had.
    pub(crate) fn refuse(&mut self) -> Answer
        ensures { (words : ℕ → ℕ) (text : _) → Replies [] words self.old text (replies_of result) self.new }
    {
        let _ = &self.session;
        Answer::One(Reply::NoMem { id: None })
    }

    /// Whether a request is open.
    pub(crate) fn is_waiting(&self) -> bool
        ensures { result ≡ is_waiting self.now }
    {
        self.session.is_waiting()
    }

    /// Gives the request that was opened first its last word, where one is open.
    pub(crate) fn answer_first(&mut self, alloc: Global) -> Option<Reply>
        ensures some { IfSome result (λ reply. AnswersFirst self.old reply self.new) }
        ensures none { IfNone result ((self.old.requests ≡ []) × (self.new ≡ self.old)) }
    {
        self.session.answer_first(alloc)
    }
}

/// The words of the session with a number.
fn seeds_of(number: u32) -> Seeds
    ensures { result ≡ record { seed = 0; stream = number } }
{
    Seeds {
        seed: 0,
        stream: number,
    }
}
