//! What a session knows, as the reading of its messages needs it. Contracts see it as `Known` (specs/Messages.antt).

ghost use Rattle.std.specs.Prelude.{◌≡◌, ◌<◌, ◌∷◌, ◌++◌, [], false, true, length, map, ◌==◌, nat_lt, option_map, position, slice_get, IfOk, OnOk, OnErr};
ghost use Rattle.std.specs.Arc.{arc_value};
ghost use Rattle.hv_message.specs.Messages.{closed, is_open, object_at};

use hv_asked::{MAX_OBJECTS, MAX_OPEN};
use hv_lineage::Lineage;
use hv_value::{Catalog, Mem};
use std::alloc::Global;
use std::marker::Model;
use std::sync::Arc;

/// The objects of a session by number, the ids of its open requests in the order in which they were opened, whether
/// it heard `end`, and the catalog of named tables.
#[derive(Drop)]
pub struct TalkState {
    catalog: Arc<Catalog>,
    objects: Vec<Arc<Lineage>>,
    requests: Vec<u64>,
    ended: bool,
}

impl Model for TalkState {
    ghost use Rattle.std.specs.Prelude.{map};
    ghost use Rattle.std.specs.Arc.{arc_value};
    ghost use Rattle.std.specs.Coded.{codes};
    ghost use Rattle.hv_lineage.specs.contracts.term.Term as term_row;
    ghost use Rattle.hv_message.specs.Messages.{Known};

    ghost Value = { Known };

    ghost coded = { Prim.hlevel (codes, term_row.the_row.coded) };

    ghost view = { λ s. record { tables = arc_value s.catalog; objects = map arc_value s.objects.items; requests = s.requests.items; ended = s.ended } };
}

fn place_of(requests: &[u64], id: u64) -> Option<usize>
    ensures { result ≡ position (λ request. request == id) requests.now }
{
    requests.iter().position(|request| *request == id)
}

impl TalkState {
    /// A session that has heard nothing. It takes no memory but for the objects and requests to come.
    pub fn new(alloc: Global, catalog: Arc<Catalog>) -> Mem<TalkState>
        ensures { IfOk result (λ state. state ≡ record { tables = arc_value catalog; objects = []; requests = []; ended = false }) }
    {
        Ok(TalkState {
            catalog,
            objects: Vec::new(alloc),
            requests: Vec::new(alloc),
            ended: false,
        })
    }

    /// Makes the next object, and gives its number. There are fewer than 4,096 before.
    pub fn add(&mut self, made: Arc<Lineage>) -> Mem<u32>
        requires { length self.old.objects < MAX_OBJECTS }
        ensures number { IfOk result (λ number. number ≡ length self.old.objects) }
        ensures ok { OnOk result (self.new ≡ record self.old { objects = self.old.objects ++ arc_value made ∷ [] }) }
        ensures err { OnErr result (self.new ≡ self.old) }
    {
        let number = self.objects.len() as u32;
        self.objects.push(made)?;
        Ok(number)
    }

    /// Opens a request. Its id is that of no open one, and fewer than 64 are open.
    pub fn begin(&mut self, id: u64) -> Mem<()>
        requires few { length self.old.requests < MAX_OPEN }
        requires free { is_open id self.old.requests ≡ false }
        ensures ok { OnOk result (self.new ≡ record self.old { requests = self.old.requests ++ id ∷ [] }) }
        ensures err { OnErr result (self.new ≡ self.old) }
    {
        self.requests.push(id)?;
        Ok(())
    }

    /// Ends the open request with an id.
    pub fn drop_id(&mut self, id: u64)
        requires { is_open id self.old.requests ≡ true }
        ensures { self.new ≡ record self.old { requests = closed id self.old.requests } }
    {
        if let Some(place) = place_of(self.requests.as_slice(), id) {
            self.requests.remove(place);
        }
    }

    /// Notes that `end` was heard.
    pub fn end(&mut self)
        ensures { self.new ≡ record self.old { ended = true } }
    {
        self.ended = true;
    }

    /// Whether a request with this id is open.
    pub fn is_open(&self, id: u64) -> bool
        ensures { result ≡ is_open id self.now.requests }
    {
        self.requests.iter().any(|request| *request == id)
    }

    pub(crate) fn has_ended(&self) -> bool
        ensures { result ≡ self.now.ended }
    {
        self.ended
    }

    /// Whether there is room for one object more.
    pub(crate) fn has_room(&self) -> bool
        ensures { result ≡ nat_lt (length self.now.objects) MAX_OBJECTS }
    {
        self.objects.len() < MAX_OBJECTS
    }

    /// Whether there is room for one open request more.
    pub(crate) fn can_open(&self) -> bool
        ensures { result ≡ nat_lt (length self.now.requests) MAX_OPEN }
    {
        self.requests.len() < MAX_OPEN
    }

    /// The catalog of named tables.
    pub(crate) fn catalog(&self) -> &Catalog
        ensures { result.now ≡ self.now.tables }
    {
        &self.catalog
    }

    /// The object with a number.
    pub(crate) fn object(&self, number: i128) -> Option<&Arc<Lineage>>
        ensures { option_map (λ object. arc_value object.now) result ≡ object_at self.now.objects number }
    {
        if 0 <= number && number < i128::from(u64::MAX) {
            self.objects.get(number as usize)
        } else {
            None
        }
    }
}
