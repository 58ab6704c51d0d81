ghost use Rattle.std.specs.Prelude.{◌≡◌, ◌<◌, [], length, IfOk, OnOk, OnErr};
ghost use Rattle.std.specs.Option.{ForSome};
ghost use Rattle.lw_counter.specs.Fragment.{cut_to, with_link, with_world, world_at, IsFormed};

use std::alloc::{AllocError, Global};
use std::marker::Model;

/// The worlds that a search has found, each with the items of its label and perhaps an earlier world whose child it is,
/// and links between worlds. The worlds are the numbers below their count.
#[derive(Drop)]
pub struct Fragment {
    worlds: Vec<World>,
    links: Vec<(usize, usize)>,
}

/// A world, by the items of its label and its parent.
#[derive(Drop)]
struct World {
    label: Vec<usize>,
    parent: Option<usize>,
}

impl Model for World {
    ghost use Rattle.lw_counter.specs.Fragment as spec;

    ghost Value = { spec.World };

    ghost view = { λ w. record { label = w.label.items; parent = w.parent } };
}

impl Model for Fragment {
    ghost use Rattle.lw_counter.specs.Fragment as spec;

    ghost Value = { spec.Fragment };

    ghost view = { λ f. record { worlds = f.worlds.items; links = f.links.items } };

    ghost invariant = { λ f. spec.IsFormed (record { worlds = f.worlds.items; links = f.links.items }) };
}

impl Fragment {
    /// A fragment without worlds, which has taken no memory yet.
    pub fn new(alloc: Global) -> Fragment
        ensures { result ≡ record { worlds = []; links = [] } }
    {
        Fragment {
            worlds: Vec::new(alloc),
            links: Vec::new(alloc),
        }
    }

    /// How many worlds there are. The worlds are the numbers below.
    pub fn count(&self) -> usize
        ensures count { result ≡ length self.now.worlds }
        ensures formed { IsFormed self.now }
    {
        self.worlds.len()
    }

    /// Puts a world with the items of its label behind the others, as a child of the parent where there is one, and
    /// gives its number. It fails for want of memory alone, and then the fragment is as before.
    pub fn add(&mut self, parent: Option<usize>, label: &[usize]) -> Result<usize, AllocError>
        requires { ForSome parent (λ world. world < length self.old.worlds) }
        ensures number { IfOk result (λ world. world ≡ length self.old.worlds) }
        ensures added { OnOk result (self.new ≡ with_world self.old parent label.now) }
        ensures failed { OnErr result (self.new ≡ self.old) }
    {
        let number = self.worlds.len();
        let label = Vec::from_slice(*self.worlds.allocator(), label)?;
        self.worlds.push(World { label, parent })?;
        Ok(number)
    }

    /// Links a world to another. It fails for want of memory alone, and then the fragment is as before.
    pub fn link(&mut self, from: usize, to: usize) -> Result<(), AllocError>
        requires from { from < length self.old.worlds }
        requires to { to < length self.old.worlds }
        ensures added { OnOk result (self.new ≡ with_link self.old from to) }
        ensures failed { OnErr result (self.new ≡ self.old) }
    {
        self.links.push((from, to))?;
        Ok(())
    }

    /// Keeps the first `count` worlds and the links between them.
    pub fn cut(&mut self, count: usize)
        ensures { self.new ≡ cut_to count self.old }
    {
        self.worlds.truncate(count);
        self.links.retain(|(from, to)| *from < count && *to < count);
    }

    /// The world whose child this one is, if it is one.
    pub fn parent(&self, world: usize) -> Option<usize>
        requires { world < length self.now.worlds }
        ensures { result ≡ (world_at self.now world).parent }
    {
        let world = &self.worlds[world];
        world.parent
    }

    /// The items of a world's label.
    pub fn label(&self, world: usize) -> &[usize]
        requires { world < length self.now.worlds }
        ensures { result.now ≡ (world_at self.now world).label }
    {
        let world = &self.worlds[world];
        &world.label
    }

    /// The links, each as the world that it leads from and the one that it leads to.
    pub fn links(&self) -> &[(usize, usize)]
        ensures links { result.now ≡ self.now.links }
        ensures formed { IsFormed self.now }
    {
        &self.links
    }

    /// The memory that the fragment is kept in.
    pub fn allocator(&self) -> Global {
        *self.worlds.allocator()
    }
}
