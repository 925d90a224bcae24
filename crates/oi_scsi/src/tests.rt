use super::*;
use oi_base::Blob;
use std::test::Fail;

#[test]
fn descriptor_blocks(rt: HostRuntime) -> Result<(), Fail> {
    let zeros = Blob::from_vec(vec![in rt.alloc(); 0u8; 512]?);
    for (kind, bytes, length) in [
        (
            Kind::Read { lba: 16, blocks: 8 },
            [0x28, 0, 0, 0, 0, 16, 0, 0, 8, 0, 0, 0, 0, 0, 0, 0],
            4096,
        ),
        (
            Kind::Read {
                lba: 0xffff_ffff,
                blocks: 2048,
            },
            [0x28, 0, 255, 255, 255, 255, 0, 8, 0, 0, 0, 0, 0, 0, 0, 0],
            1_048_576,
        ),
        (
            Kind::Read {
                lba: 0x1_0000_0000,
                blocks: 1,
            },
            [0x88, 0, 0, 0, 0, 1, 0, 0, 0, 0, 0, 0, 0, 1, 0, 0],
            512,
        ),
        (Kind::Unit, [0; 16], 0),
        (
            Kind::Inquiry,
            [0x12, 0, 0, 0, 36, 0, 0, 0, 0, 0, 0, 0, 0, 0, 0, 0],
            36,
        ),
        (
            Kind::Capacity,
            [0x25, 0, 0, 0, 0, 0, 0, 0, 0, 0, 0, 0, 0, 0, 0, 0],
            8,
        ),
        (
            Kind::Luns,
            [0xa0, 0, 0, 0, 0, 0, 0, 0, 1, 8, 0, 0, 0, 0, 0, 0],
            264,
        ),
        (
            Kind::Sync,
            [0x35, 0, 0, 0, 0, 0, 0, 0, 0, 0, 0, 0, 0, 0, 0, 0],
            0,
        ),
        (
            Kind::ReserveOut {
                action: 0,
                form: 0,
                key: 0,
                new_key: 0xaa,
            },
            [0x5f, 0, 0, 0, 0, 0, 0, 0, 24, 0, 0, 0, 0, 0, 0, 0],
            24,
        ),
        (
            Kind::ReserveIn { action: 1 },
            [0x5e, 1, 0, 0, 0, 0, 0, 1, 8, 0, 0, 0, 0, 0, 0, 0],
            264,
        ),
        (
            Kind::Write {
                lba: 0x0102_0304,
                blocks: 1,
                payload: zeros,
            },
            [0x2a, 0, 1, 2, 3, 4, 0, 0, 1, 0, 0, 0, 0, 0, 0, 0],
            512,
        ),
    ] {
        assert_eq!(rt; cdb(&kind), bytes, "{kind:?}");
        assert_eq!(rt;
            (crate::length(&kind), kind.length()),
            (length, length),
            "{kind:?}"
        );
        assert!(rt; kind.is_valid(), "{kind:?}");
    }
    assert!(rt;
        !Kind::Read {
            lba: 1 << 63,
            blocks: 1
        }
        .is_valid()
    );
    assert_eq!(rt; lun_bytes(3), [0, 3, 0, 0, 0, 0, 0, 0]);
    Ok(())
}

#[test]
fn reservation_parameters(rt: HostRuntime) -> Result<(), Fail> {
    let kind = Kind::ReserveOut {
        action: 1,
        form: 1,
        key: 0x0102,
        new_key: 0xaa,
    };
    let data = kind.data(rt.alloc())?;
    assert_eq!(rt;
        data.as_slice(),
        [
            0u8, 0, 0, 0, 0, 0, 1, 2, 0, 0, 0, 0, 0, 0, 0, 0xaa, 0, 0, 0, 0, 0, 0, 0, 0
        ]
        .as_slice()
    );
    Ok(())
}

#[test]
fn sense_data(rt: HostRuntime) {
    assert_eq!(rt; sense_of(&[0, 2, 0x70, 0, 5]), [0x70u8, 0].as_slice());
    assert_eq!(rt; sense_of(&[0, 9, 0x70]), [0x70u8].as_slice());
    assert_eq!(rt; sense_of(&[0]), [0u8; 0].as_slice());
}
