// Lists in shared blocks, over the ends of blocks and groups.

ghost use Rattle.std.specs.Prelude.{◌<◌};

use pk_blocks::Blocks;
use pk_value::Value;
use std::test::Fail;

#[test]
fn writes(rt: HostRuntime) -> Result<(), Fail> {
    let alloc = rt.alloc();
    let mut blocks = Blocks::filled(alloc, Value::exactly(7), 1100)?;
    let old = blocks.copy(alloc)?;
    for i in [0, 15, 16, 511, 512, 1099] {
        if i < blocks.len() {
            blocks.set(alloc, i, Value::exactly(i as i128))?;
        }
    }
    for i in 0..blocks.len() {
        let expected = match i {
            0 | 15 | 16 | 511 | 512 | 1099 => i as i128,
            _ => 7,
        };
        assert!(rt; blocks.get(i).interval.lo == expected);
    }
    for i in 0..old.len() {
        assert!(rt; old.get(i).interval.lo == 7);
    }
    assert!(rt; (blocks.len(), old.len()) == (1100, 1100));
    Ok(())
}
