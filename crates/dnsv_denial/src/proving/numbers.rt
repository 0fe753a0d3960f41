//! From places among a chain's records to their numbers among the evidence.
ghost use Rattle.std.specs.Prelude.{◌<◌, map};
ghost use Rattle.std.specs.List.{AllByRecursion};
ghost use Rattle.dnsv_denial.specs.proving.FirstProof.{AreRecordsOf};
ghost use Rattle.dnsv_proof_forms.specs.records.Numbers.{numbers_of, number_at, record_count};

use arrayvec::ArrayVec;
use dnsv_canonical::RecordNumber;
use dnsv_proof_forms::{ChainRecords, Places};

/// The numbers of the chain's records at these places, each once and rising.
pub fn record_numbers(places: &Places, records: &ChainRecords<'_>) -> ArrayVec<RecordNumber, 3>
    requires { AllByRecursion (λ place. place < record_count records.now) places.now.items }
    ensures { AreRecordsOf (map (number_at (numbers_of records.now)) places.now.items) result.items }
{
    let mut numbers = ArrayVec::new();
    for place in places.iter() {
        let number = records.number(*place);
        if !numbers.contains(&number) {
            numbers.push(number);
        }
    }
    numbers.sort_unstable();
    numbers
}
