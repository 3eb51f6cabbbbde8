//! One shard of channel 2, where key 1 stands for name 10, and the objects 5 and 6.

ghost use Rattle.std.specs.Prelude.{◌≡◌, IfOk, map};
ghost use Rattle.shard_core.specs.Alone.{plans_in};
ghost use Rattle.agent_core.specs.Plans.{AreShards};
ghost use Rattle.object_core.specs.Shelving.{HaveOwnNumbers, fixed_of};
ghost use Rattle.lane_tests.specs.Seats.{HasChannel};

use object_core::Object;
use prin_term::{Anchor, Term};
use shard_core::{Lone, Shard, open_shards};
use std::alloc::{AllocError, Global};
use std::sync::Arc;
use std::test::Fail;
use stmt_codec::{Cert, CertBody};

/// That key 1 says that key 2 speaks for name 10.
pub(crate) fn hand_off(alloc: Global) -> Result<Arc<Cert>, AllocError> {
    let body = CertBody::says(1, None, Term::Key(2), Term::Name(10), 2000, 1);
    // It is well formed, so only memory may lack.
    let cert = Cert::of(alloc, body).map_err(|_| AllocError)?;
    Ok(Arc::new(alloc, cert)?)
}

/// The shard, with the anchors of all.
pub(crate) fn one_shard(alloc: Global) -> Result<(Vec<Shard>, Arc<Vec<Anchor>>), Fail>
    ensures shards { IfOk result (λ r. AreShards (plans_in r.0.items) r.1.value.items) }
    ensures planned { IfOk result (λ r. HasChannel (plans_in r.0.items) 2) }
{
    let anchors = Arc::new(alloc, vec![in alloc; Anchor { key: 1, name: 10 }]?)?;
    let shards = open_shards(alloc, &[2], 1, &anchors, &[], 3600, 1000)?;
    let lone = Lone::new(shards, Arc::try_clone(&anchors)?);
    if !lone.has_channel(2) {
        return Err(Fail::new("no channel"));
    }
    Ok((lone.close(), anchors))
}

/// The objects, which are empty and may be read by nobody.
pub(crate) fn two_objects(alloc: Global) -> Result<Vec<Object>, AllocError>
    ensures { IfOk result (λ v. HaveOwnNumbers (map fixed_of v.items)) }
{
    let list = Arc::new(alloc, Vec::new(alloc))?;
    let five = Object::new(alloc, 5, &[], Arc::try_clone(&list)?, 10)?;
    let six = Object::new(alloc, 6, &[], list, 10)?;
    Ok(vec![in alloc; five, six]?)
}
