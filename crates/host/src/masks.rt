// The mask file of a script for a host: 0 and the count behind `at` moved on, or a refusal's number and
// all as it was.
ghost use Rattle.std.specs.Prelude.{◌≡◌};
ghost use Rattle.mask_files.specs.Masks.{filed_number};
ghost use Rattle.host.specs.Masks.{place_by, masks_at};

use refusals::Refusal;

// The place after the records goes behind `at`, and a refusal leaves it; the answer, by its number, comes
// back.
fn told(filed: Result<usize, Refusal>, at: &mut u64) -> u32
    ensures { (result ≡ filed_number filed) × (at.new ≡ place_by at.old filed) }
{
    match filed {
        Ok(after) => {
            *at = after as u64;
            0
        }
        Err(refusal) => u64::from(refusal) as u32,
    }
}

#[unsafe(no_mangle)]
pub extern "C" fn rk_masks(
    script: &[u8],
    fft_size: usize,
    depth_db: f32,
    out: &mut [u8],
    at: &mut u64,
) -> u32
    ensures { (result, out.new, at.new) ≡ masks_at script.now fft_size depth_db out.old at.old }
{
    let filed = mask_files::masks(script, fft_size, depth_db, out, *at as usize);
    told(filed, at)
}
