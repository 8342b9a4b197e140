//! The engines that sent something, and from where.

use engine_clock::EngineId;
use std::alloc::{AllocError, Global};
use std::collections::BTreeMap;
use std::net::SocketAddr;

/// How many engines are followed.
pub(crate) const ENGINES_LIMIT: usize = 65_536;

/// The engines that sent something, each with the address and port that it answered from last, if that is known.
#[derive(Drop)]
pub(crate) struct Agents {
    endpoints: BTreeMap<EngineId, Option<SocketAddr>>,
}

impl Agents {
    pub(crate) fn new(alloc: Global) -> Agents {
        Agents {
            endpoints: BTreeMap::new(alloc),
        }
    }

    /// No further engine is followed, and this one isn't yet.
    pub(crate) fn leaves_out(&self, engine: &EngineId) -> bool {
        self.endpoints.len() >= ENGINES_LIMIT && self.endpoints.get(engine).is_none()
    }

    /// The engine sent something from there. A notification, which comes from any port, tells this only where nothing
    /// is known yet.
    pub(crate) fn saw(
        &mut self,
        engine: &EngineId,
        from: Option<SocketAddr>,
        notifies: bool,
    ) -> Result<(), AllocError> {
        if notifies && self.endpoint(engine).is_some() {
            return Ok(());
        }
        self.endpoints.insert(engine.copy(), from)?;
        Ok(())
    }

    /// From where the engine answered last.
    pub(crate) fn endpoint(&self, engine: &EngineId) -> Option<SocketAddr> {
        match self.endpoints.get(engine) {
            Some(endpoint) => *endpoint,
            None => None,
        }
    }
}
