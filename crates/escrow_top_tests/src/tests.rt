//! The numbers of exit statuses, of which no case can have all.

use certificate_answers::{Status, case_laws};

#[test]
fn exit_statuses(rt: HostRuntime) {
    case_laws();
    let rows = [
        (Status::Done, 0),
        (Status::No, 1),
        (Status::Usage, 2),
        (Status::Refused, 3),
        (Status::Infeasible, 4),
        (Status::NoneWithinYield, 5),
        (Status::BudgetSpent, 6),
        (Status::ReadFault, 8),
        (Status::WriteFault, 9),
        (Status::NoFile, 10),
        (Status::NoMemory, 11),
    ];
    for (status, code) in &rows {
        assert_eq!(rt; status.code(), *code);
    }
}
