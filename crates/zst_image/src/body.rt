use std::alloc::{AllocError, Global};
use std::marker::Model;
use zst_space::{Extent, Space};
use zst_uber::Uber;

/// The latest body of an image, with the free extents that it names.
#[derive(Drop)]
pub struct Body {
    uber: Uber,
    free: Vec<Extent>,
}

impl Model for Body {
    ghost use Rattle.zst_image.specs.Bodies as bodies;

    ghost Value = { bodies.Body };

    ghost view = { λ body. record { uber = body.uber; free = body.free.items } };
}

impl Body {
    ghost use Rattle.std.specs.Prelude.{◌≡◌, IfOk};
    ghost use Rattle.zst_image.specs.Bodies.{free_by};

    /// A body and the free extents that it names.
    pub fn new(uber: Uber, free: Vec<Extent>) -> Body
        ensures { result ≡ record { uber = uber; free = free.items } }
    {
        Body { uber, free }
    }

    /// What stands in the body's sector.
    pub fn uber(&self) -> &Uber
        ensures { result.now ≡ self.now.uber }
    {
        &self.uber
    }

    /// The free extents below the body's end.
    pub fn free(&self) -> &[Extent]
        ensures { result.now ≡ self.now.free }
    {
        &self.free
    }

    /// The sectors that are free by the body.
    pub fn space(&self, alloc: Global) -> Result<Space, AllocError>
        ensures { IfOk result (λ space. space ≡ free_by self.now) }
    {
        let mut free = Vec::new(alloc);
        free.extend_from_slice(&self.free)?;
        Ok(Space::new(self.uber.end, self.uber.sectors, free))
    }
}
