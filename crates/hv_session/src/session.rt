//! A session. Contracts see one as the tables of its catalog and its talk, in which nothing is owed between two calls.

ghost use Rattle.std.specs.Prelude.{◌≡◌, ◌<◌, ◌≤◌, ◌^◌, ℕ, [], ◌==◌, length, nat_lt, position, true, None, IfOk, IfNone, IfSome, OnOk, OnErr};
ghost use Rattle.std.specs.Arc.{arc_value};
ghost use Rattle.serde_json.specs.Read.{read};
ghost use Rattle.serde_json.specs.View.{view};
ghost use Rattle.hv_message.specs.declared.message.Message.TheVariants as Message;
ghost use Rattle.hv_lineage.specs.Combining.{sampled};
ghost use Rattle.hv_lineage.specs.Lineages.{room_refusal};
ghost use Rattle.hv_message.specs.Meant.{CanOpen, CanSample, CanServe, message_meant};
ghost use Rattle.hv_message.specs.Messages.{is_open};
ghost use Rattle.hv_pick.specs.Word.{word_of};
ghost use Rattle.hv_session.specs.declared.request.OpenRequest.{OpenRequest as Opened};
ghost use Rattle.hv_session.specs.Held.{AnswersFirst, refusal_reply, replies_of, Serves};
ghost use Rattle.hv_session.specs.Talk.{Pays, Replies, after_meaning, closed, known, new_talk};

use crate::last_words::last_word;
use crate::{Answer, OpenRequest, Seeds};
use hv_lineage::{Lineage, Shared};
use hv_message::{MAX_MESSAGE_BYTES, Message, Refusal, TalkState, Why, read_message, read_value};
use hv_reply::Reply;
use hv_value::{Catalog, Mem, Memory};
use hv_view::Plan;
use serde_json::Value;
use std::alloc::Global;
use std::marker::Model;
use std::sync::Arc;

/// A session, which has heard some texts.
#[derive(Drop)]
pub struct Session {
    state: TalkState,
    requests: Vec<OpenRequest>,
    /// How many seeds it has drawn, each for an object that it made.
    drawn: u32,
}

impl Model for Session {
    ghost use Rattle.std.specs.Coded.{codes};
    ghost use Rattle.hv_lineage.specs.contracts.term.Term as term_row;
    ghost use Rattle.hv_session.specs.Held.{Held, IsSession, talk_held};

    ghost Value = { Held };

    ghost coded = { Prim.hlevel (codes, term_row.the_row.coded) };

    ghost view = { λ s. record { tables = s.state.tables; talk = talk_held s.state s.requests.items s.drawn } };

    ghost invariant = { λ s. IsSession s.state s.requests.items s.drawn };
}

impl Session {
    /// A session that has heard nothing.
    pub fn new(alloc: Global, catalog: Arc<Catalog>) -> Mem<Session>
        ensures { IfOk result (λ session. session ≡ record { tables = arc_value catalog; talk = new_talk }) }
    {
        Ok(Session {
            state: TalkState::new(alloc, catalog)?,
            requests: Vec::new(alloc),
            drawn: 0,
        })
    }

    /// Hears a text, and gives the replies that are due at once. A seed that is wanted and not given is the next of
    /// the session's words.
    pub fn hear(&mut self, alloc: Global, seeds: Seeds, text: &str) -> Answer
        ensures talk { Replies self.old.tables (word_of seeds.seed seeds.stream)
            self.old.talk text.now (replies_of result) self.new.talk }
        ensures tables { self.new.tables ≡ self.old.tables }
    {
        match read_message(alloc, text, &self.state) {
            Ok(message) => self.serve(alloc, seeds, message),
            Err(refusal) => Answer::One(refused(refusal)),
        }
    }

    /// Hears a text that is given with the value that it is read as.
    pub fn hear_value(&mut self, alloc: Global, seeds: Seeds, text: &str, value: &Value) -> Answer
        requires { read text.now ≡ Some (view value.now) }
        ensures talk { Replies self.old.tables (word_of seeds.seed seeds.stream)
            self.old.talk text.now (replies_of result) self.new.talk }
        ensures tables { self.new.tables ≡ self.old.tables }
    {
        // a field is read, so that what always holds of a session is known here
        let _ = &self.requests;
        if text.len() > MAX_MESSAGE_BYTES {
            return Answer::One(Reply::Malformed {
                id: None,
                why: Why::Size,
            });
        }
        match read_value(alloc, value, &self.state) {
            Ok(message) => self.serve(alloc, seeds, message),
            Err(refusal) => Answer::One(refused(refusal)),
        }
    }

    /// Serves a message, and gives the replies that are due at once.
    fn serve(&mut self, alloc: Global, seeds: Seeds, message: Message) -> Answer
        requires { CanServe (known self.old.tables self.old.talk) message }
        ensures talk { Serves (word_of seeds.seed seeds.stream) self.old.talk message (replies_of result) self.new.talk }
        ensures tables { self.new.tables ≡ self.old.tables }
    {
        // a field is read, so that what always holds of a session is known here
        let _ = &self.requests;
        match message {
            Message::Make { id, made } => self.make(id, made),
            Message::Sample {
                id,
                of,
                threshold,
                seed,
            } => self.sample(alloc, seeds, id, &of, threshold, seed),
            Message::Info { id, of } => Answer::One(Reply::Info {
                id,
                of: Shared::of(of),
            }),
            Message::View { id, of, plan } => self.open(id, of, plan),
            Message::Cancel { id, request } => self.cancel(id, request),
            Message::End { id: _ } => self.end(),
        }
    }

    /// Makes the next object.
    fn make(&mut self, id: u64, made: Arc<Lineage>) -> Answer
        requires { length self.old.talk.objects < 4096 }
        ensures talk { (words : ℕ → ℕ) → Serves words self.old.talk (Message.Make id made) (replies_of result) self.new.talk }
        ensures tables { self.new.tables ≡ self.old.tables }
    {
        match self.state.add(made) {
            Ok(made) => Answer::One(Reply::Made {
                id,
                made,
                seed: None,
            }),
            Err(_) => Answer::One(Reply::NoMem { id: Some(id) }),
        }
    }

    /// Makes the next object, a sample by the seed that is given or else by the next of the session's words.
    fn sample(
        &mut self,
        alloc: Global,
        seeds: Seeds,
        id: u64,
        of: &Arc<Lineage>,
        threshold: u64,
        seed: Option<u64>,
    ) -> Answer
        requires { CanSample (known self.old.tables self.old.talk) (arc_value of.now) threshold }
        ensures talk { Serves (word_of seeds.seed seeds.stream) self.old.talk
            (Message.Sample id of.now threshold seed) (replies_of result) self.new.talk }
        ensures tables { self.new.tables ≡ self.old.tables }
    {
        match seed {
            Some(seed) => self.sample_by(alloc, id, of, threshold, seed),
            None => self.sample_drawn(alloc, seeds, id, of, threshold),
        }
    }

    /// Makes the next object, a sample by a seed that is given.
    fn sample_by(
        &mut self,
        alloc: Global,
        id: u64,
        of: &Arc<Lineage>,
        threshold: u64,
        seed: u64,
    ) -> Answer
        requires { CanSample (known self.old.tables self.old.talk) (arc_value of.now) threshold }
        ensures talk { (words : ℕ → ℕ) → Serves words self.old.talk
            (Message.Sample id of.now threshold (Some seed)) (replies_of result) self.new.talk }
        ensures tables { self.new.tables ≡ self.old.tables }
    {
        // a field is read, so that what always holds of a session is known here
        let _ = &self.requests;
        let Ok(made) = sample_of(alloc, of, seed, threshold) else {
            return Answer::One(Reply::NoMem { id: Some(id) });
        };
        match self.state.add(made) {
            Ok(made) => Answer::One(Reply::Made {
                id,
                made,
                seed: Some(seed),
            }),
            Err(_) => Answer::One(Reply::NoMem { id: Some(id) }),
        }
    }

    /// Makes the next object, a sample by the next of the session's words. A word is used up only where the sample is
    /// made.
    fn sample_drawn(
        &mut self,
        alloc: Global,
        seeds: Seeds,
        id: u64,
        of: &Arc<Lineage>,
        threshold: u64,
    ) -> Answer
        requires { CanSample (known self.old.tables self.old.talk) (arc_value of.now) threshold }
        ensures talk { Serves (word_of seeds.seed seeds.stream) self.old.talk
            (Message.Sample id of.now threshold None) (replies_of result) self.new.talk }
        ensures tables { self.new.tables ≡ self.old.tables }
    {
        let seed = seeds.after(self.drawn);
        let Ok(made) = sample_of(alloc, of, seed, threshold) else {
            return Answer::One(Reply::NoMem { id: Some(id) });
        };
        match self.state.add(made) {
            Ok(made) => {
                self.drawn += 1;
                Answer::One(Reply::Made {
                    id,
                    made,
                    seed: Some(seed),
                })
            }
            Err(_) => Answer::One(Reply::NoMem { id: Some(id) }),
        }
    }

    /// Opens a request.
    fn open(&mut self, id: u64, of: Arc<Lineage>, plan: Plan) -> Answer
        requires { CanOpen (known self.old.tables self.old.talk) id (arc_value of) plan }
        ensures talk { (words : ℕ → ℕ) → Serves words self.old.talk (Message.View id of plan) (replies_of result) self.new.talk }
        ensures tables { self.new.tables ≡ self.old.tables }
    {
        match self.opened(id, of, plan) {
            Ok(()) => Answer::Nothing,
            Err(_) => Answer::One(Reply::NoMem { id: Some(id) }),
        }
    }

    /// Notes an open request with what the reading of messages knows of it, or leaves both as they were.
    fn opened(&mut self, id: u64, of: Arc<Lineage>, plan: Plan) -> Mem<()>
        requires { CanOpen (known self.old.tables self.old.talk) id (arc_value of) plan }
        ensures ok { OnOk result ((words : ℕ → ℕ) → Pays (after_meaning words self.old.talk (message_meant (Message.View id of plan))) [] self.new.talk) }
        ensures err { OnErr result (self.new.talk ≡ self.old.talk) }
        ensures tables { self.new.tables ≡ self.old.tables }
    {
        self.requests.reserve(1)?;
        self.state.begin(id)?;
        self.requests.push_reserved(OpenRequest {
            id,
            of: Shared::of(of),
            plan,
        });
        Ok(())
    }

    /// Ends an open request.
    fn cancel(&mut self, id: u64, request: u64) -> Answer
        requires { is_open request (known self.old.tables self.old.talk).requests ≡ true }
        ensures talk { (words : ℕ → ℕ) → Serves words self.old.talk (Message.Cancel id request) (replies_of result) self.new.talk }
        ensures tables { self.new.tables ≡ self.old.tables }
    {
        // a field is read, so that what always holds of a session is known here
        let _ = &self.requests;
        self.close(request);
        Answer::Two(Reply::Cancelled { id: request }, Reply::Done { id })
    }

    /// Takes away the open request with an id.
    fn close(&mut self, id: u64)
        requires { is_open id (known self.old.tables self.old.talk).requests ≡ true }
        ensures talk { self.new.talk ≡ record self.old.talk { requests = closed id self.old.talk.requests } }
        ensures tables { self.new.tables ≡ self.old.tables }
    {
        self.state.drop_id(id);
        if let Some(place) = place_of(self.requests.as_slice(), id) {
            drop(self.requests.remove(place));
        }
    }

    /// Notes that nothing more is heard.
    fn end(&mut self) -> Answer
        ensures talk { self.new.talk ≡ record self.old.talk { ended = true } }
        ensures answer { replies_of result ≡ [] }
        ensures tables { self.new.tables ≡ self.old.tables }
    {
        self.state.end();
        Answer::Nothing
    }

    /// Gives the request that was opened first its last word, and takes it away: none where no request is open.
    pub fn answer_first(&mut self, alloc: Global) -> Option<Reply>
        ensures some { IfSome result (λ reply. AnswersFirst self.old.talk reply self.new.talk) }
        ensures none { IfNone result ((self.old.talk.requests ≡ []) × (self.new.talk ≡ self.old.talk)) }
        ensures tables { self.new.tables ≡ self.old.tables }
    {
        let _ = &self.state;
        let first = self.requests.first()?;
        let id = first.id;
        let reply = last_word(alloc, first);
        self.requests.remove(0);
        self.state.drop_id(id);
        Some(reply)
    }

    /// Whether a request is open.
    pub fn is_waiting(&self) -> bool
        ensures { result ≡ nat_lt 0 (length self.now.talk.requests) }
    {
        !self.requests.is_empty()
    }
}

/// The sample of an object of which one can be made.
fn sample_of(alloc: Global, of: &Arc<Lineage>, seed: u64, threshold: u64) -> Mem<Arc<Lineage>>
    requires deep { room_refusal (arc_value of.now) ≡ None }
    requires fit { threshold ≤ 2 ^ 32 }
    ensures { IfOk result (λ made. arc_value made ≡ sampled (arc_value of.now) seed threshold) }
{
    // nothing but want of memory is left to refuse it
    Lineage::sample(alloc, of, seed, threshold).map_err(|_| Memory)
}

/// What is said of a text that gave no message.
fn refused(refusal: Refusal) -> Reply
    ensures { result ≡ refusal_reply refusal }
{
    match refusal {
        Refusal::Malformed(why, id) => Reply::Malformed { id, why },
        Refusal::Memory(id) => Reply::NoMem { id },
    }
}

/// The place of the first request with an id.
fn place_of(requests: &[OpenRequest], id: u64) -> Option<usize>
    ensures { result ≡ position (λ (request : Opened). request.id == id) requests.now }
{
    requests.iter().position(|request| request.id == id)
}
