//! The vertices that classes become.

ghost use Rattle.std.specs.Prelude.{◌≡◌, ◌<◌, ◌≤◌, suc, length, IfOk, OnOk};
ghost use Rattle.graph_like.specs.Classes.{named_by};
ghost use Rattle.graph_like.specs.Internal.Homes.{IsNaming, AreHomes, TakesIn, home_of};

use std::alloc::{AllocError, Global};

// To each spider the vertex that its class becomes. Classes are numbered in the order of their smallest spiders.
#[derive(Drop)]
pub(crate) struct Homes {
    vertices: Vec<usize>,
    count: usize,
}

impl Homes {
    // The vertices of the classes that these smallest spiders name.
    pub(crate) fn of_classes(alloc: Global, least: &[usize]) -> Result<Homes, AllocError>
        requires { IsNaming (named_by least.now) }
        ensures length { IfOk result (λ homes. length homes.vertices.items ≡ length least.now) }
        ensures homes { IfOk result (λ homes. AreHomes (named_by least.now) homes.vertices.items homes.count) }
    {
        let mut homes = Homes {
            vertices: Vec::new(alloc),
            count: 0,
        };
        for u in 0..least.len() {
            homes.add(least[u])?;
        }
        Ok(homes)
    }

    // Adds a further spider: to the class of its smallest one, or as the first of a new class.
    fn add(&mut self, least: usize) -> Result<(), AllocError>
        requires low { least ≤ length self.old.vertices.items }
        requires few { self.old.count ≤ length self.old.vertices.items }
        ensures length { OnOk result (length self.new.vertices.items ≡ suc (length self.old.vertices.items)) }
        ensures homes { OnOk result (TakesIn self.old least self.new) }
    {
        if least < self.vertices.len() {
            let home = self.vertices[least];
            self.vertices.push(home)?;
            return Ok(());
        }
        self.vertices.push(self.count)?;
        self.count += 1;
        Ok(())
    }

    // How many classes there are.
    pub(crate) fn count(&self) -> usize
        ensures { result ≡ self.now.count }
    {
        self.count
    }

    // The vertex that a spider's class becomes.
    pub(crate) fn of(&self, spider: usize) -> usize
        requires { spider < length self.now.vertices.items }
        ensures { result ≡ home_of self.now spider }
    {
        self.vertices[spider]
    }
}
