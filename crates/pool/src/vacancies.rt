// The lowest free place.
ghost use Rattle.std.specs.Prelude.{◌≡◌};
ghost use Rattle.pool.specs.Vacancies.{vacant_place};

use crate::{MAX_PARTICLES, Particle};

pub fn free_place(particles: [Particle; MAX_PARTICLES]) -> Option<usize>
    ensures { result ≡ vacant_place particles }
{
    particles.iter().position(|p| !p.active)
}
