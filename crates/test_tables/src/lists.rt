use crate::fault::CaseFault;
use arrayvec::ArrayVec;
use tbl_kinds::Admit;

/// Puts identifiers into a list, which has room for two.
fn fill(list: &mut ArrayVec<u32, 2>, ids: &[u32]) -> Result<(), CaseFault> {
    for id in ids {
        if list.try_push(*id).is_err() {
            return Err(CaseFault::Unreadable);
        }
    }
    Ok(())
}

/// The lists of these spacecraft and processors.
pub fn admit_of(spacecraft: &[u32], processor: &[u32]) -> Result<Admit, CaseFault> {
    let mut admit = Admit::all();
    fill(&mut admit.spacecraft, spacecraft)?;
    fill(&mut admit.processor, processor)?;
    Ok(admit)
}
