//! Copies the list of a trace's groups. A reading owns a copy of this list.
ghost use Rattle.std.specs.Prelude.{◌≡◌, IfOk};

use psi_base::NoMemory;
use psi_spec::GroupLife;
use std::alloc::Global;

fn copy_life(alloc: Global, life: &GroupLife) -> Result<GroupLife, NoMemory>
    ensures { IfOk result (λ copy. copy ≡ life.now) }
{
    Ok(GroupLife {
        path: life.path.copy(alloc)?,
        parent: life.parent,
        made: life.made,
        gone: life.gone,
        on: life.on,
    })
}

/// Returns a copy of the list of groups. Fails only if memory runs out.
pub(crate) fn copy_lives(alloc: Global, lives: &[GroupLife]) -> Result<Vec<GroupLife>, NoMemory>
    ensures { IfOk result (λ copies. copies.items ≡ lives.now) }
{
    let mut copies = Vec::with_capacity(alloc, lives.len())?;
    'lives: for life in lives {
        copies.push(copy_life(alloc, life)?)?;
    }
    Ok(copies)
}
