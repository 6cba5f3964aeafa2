//! Values that are shared, which contracts see as the values themselves.

ghost use Rattle.std.specs.Prelude.{◌≡◌, IfOk};
ghost use Rattle.std.specs.Arc.{arc_value};

use hv_value::Mem;
use std::alloc::Global;
use std::marker::Model;
use std::sync::Arc;

/// A value that its copies share.
#[derive(Drop)]
pub struct Shared<T> {
    inner: Arc<T>,
}

impl<T> Model for Shared<T> {
    ghost use Rattle.std.specs.Arc.{arc_value};

    ghost Value = { T };

    ghost coded = { T.code };

    ghost view = { λ shared. arc_value shared.inner };
}

impl<T: Drop> Shared<T> {
    pub fn new(alloc: Global, value: T) -> Mem<Shared<T>>
        ensures { IfOk result (λ made. made ≡ value) }
    {
        Ok(Shared {
            inner: Arc::new(alloc, value)?,
        })
    }

    /// What an `Arc` shares already.
    pub fn of(inner: Arc<T>) -> Shared<T>
        ensures { result ≡ arc_value inner }
    {
        Shared { inner }
    }

    pub fn get(&self) -> &T
        ensures { result.now ≡ self.now }
    {
        &self.inner
    }

    /// The same value, shared once more.
    pub fn share(&self) -> Mem<Shared<T>>
        ensures { IfOk result (λ made. made ≡ self.now) }
    {
        Ok(Shared {
            inner: Arc::try_clone(&self.inner)?,
        })
    }
}
