ghost use Rattle.std.specs.Prelude.{◌≡◌, ◌∷◌, [], ◌++◌, IfOk};
ghost use Rattle.cs_core.specs.Kept.{IsGoodView};
ghost use Rattle.cs_core.specs.Node.{has_pair};

use cs_base::RegionId;
use cs_tree::WithTrees;
use cs_view::View;
use std::alloc::{AllocError, Global};
use std::marker::Model;
use std::rc::Rc;

/// What a member remembers of the epoch before its own: its view then, with the trees of it, and the region and colour
/// of each piece that it had or passed on.
#[derive(Drop)]
pub(crate) struct Past {
    view: Rc<WithTrees<View>>,
    had: Vec<(RegionId, u8)>,
}

impl Model for Past {
    ghost use Rattle.cs_core.specs.Node.{Past};
    ghost use Rattle.cs_core.specs.Kept.{IsGoodView};

    ghost Value = { Past };

    ghost view = { λ past. record { view = past.view.value; had = past.had.items } };

    ghost invariant = { λ past. IsGoodView past.view.value };
}

impl Past {
    /// The past of a member that held these pieces when it went on from a view.
    pub fn new(view: Rc<WithTrees<View>>, had: Vec<(RegionId, u8)>) -> Self
        requires { IsGoodView view.value }
        ensures { result ≡ record { view = view.value; had = had.items } }
    {
        Past { view, had }
    }

    pub fn view(&self) -> &View
        ensures value { result.now ≡ self.now.view }
        ensures keeps { IsGoodView self.now.view }
    {
        self.view.sight()
    }

    /// The view with its trees.
    pub fn with_trees(&self) -> &WithTrees<View>
        ensures { result.now ≡ self.now.view }
    {
        &self.view
    }

    pub fn has(&self, region: RegionId, colour: u8) -> bool
        ensures { result ≡ has_pair self.now.had region colour }
    {
        self.had
            .iter()
            .any(|pair| pair.0 == region && pair.1 == colour)
    }

    /// The same past, with one more piece that was passed on.
    pub fn with(&self, alloc: Global, region: RegionId, colour: u8) -> Result<Past, AllocError>
        ensures { IfOk result (λ past. past
            ≡ record { view = self.now.view; had = self.now.had ++ (region, colour) ∷ [] }) }
    {
        let mut had = Vec::with_capacity(alloc, self.had.len().saturating_add(1))?;
        had.extend_from_slice(&self.had)?;
        had.push((region, colour))?;
        Ok(Past {
            view: self.view.clone()?,
            had,
        })
    }
}
