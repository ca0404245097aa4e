//! A router's exits. Which they are is tried on the built program, by
//! dev/whole/two_flows_over_a_router.txt.
use node_core::routes::{FlowExits, RouteTable};
use packet_chain::{Kind, Packet, PacketBytes};
use std::process::Abort;
use std::test::Fail;

fn exit_of(rt: &impl Abort, table: &RouteTable, flow: u16, kind: Kind) -> Option<u16> {
    let packet = Packet {
        flow,
        kind,
        number: 0,
        bytes: PacketBytes::new(40).expect(rt, "a size"),
    };
    table.exit(&packet)
}

#[test]
fn data_goes_to_the_receiver_and_acks_to_the_sender(rt: HostRuntime) -> Result<(), Fail> {
    let exits = vec![in rt.alloc();
        FlowExits {
            for_data: Some(0),
            for_acks: Some(3),
        },
        FlowExits {
            for_data: Some(1),
            for_acks: Some(2),
        },
    ]?;
    let table = RouteTable::new(exits);
    assert_eq!(rt; exit_of(&rt, &table, 0, Kind::Data), Some(0));
    assert_eq!(rt; exit_of(&rt, &table, 0, Kind::Ack), Some(3));
    assert_eq!(rt; exit_of(&rt, &table, 1, Kind::Data), Some(1));
    assert_eq!(rt; exit_of(&rt, &table, 1, Kind::Ack), Some(2));
    assert_eq!(rt; exit_of(&rt, &table, 2, Kind::Data), None);
    Ok(())
}
