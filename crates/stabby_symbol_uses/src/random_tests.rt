//! Random texts and tables, with what an oracle in Python says of them: `bench/words/oracle.py` writes this file.
use crate::fixtures::{comes_back, refused};
use stabby_symbol::UnpackFault;

#[test]
fn packed_random_texts(rt: HostRuntime) {
    let alloc = rt.alloc();
    assert!(rt; comes_back(alloc, "äæâ", &[6, 178961200161987]));
    assert!(rt; comes_back(alloc, "ä三", &[5, 591512511683]));
    assert!(rt;
        comes_back(
            alloc,
            "ójñ乀🐺🐧q买",
            &[20, 9275696359685141443, 12074326457251307504, 2964972657]
        )
    );
    assert!(rt; comes_back(alloc, "乏", &[3, 9419236]));
    assert!(rt; comes_back(alloc, "🐂🐧中", &[11, 12074326456311783408, 11385060]));
    assert!(rt;
        comes_back(
            alloc,
            "🐇ð🐨乥æ",
            &[15, 11524905800280612848, 46939962689759376]
        )
    );
    assert!(rt; comes_back(alloc, "乧🐶ñ", &[9, 14102618299769010660, 177]));
    assert!(rt; comes_back(alloc, "乶h丝", &[7, 44394862492432868]));
}

#[test]
fn random_tables(rt: HostRuntime) {
    let alloc = rt.alloc();
    assert!(rt;
        refused(alloc, &[6, 170118901512420, 8177170106291407681])
            == Some(UnpackFault::Length {
                stated: 6,
                words: 2
            })
    );
    assert!(rt;
        refused(alloc, &[15, 10344944199586062320])
            == Some(UnpackFault::Length {
                stated: 15,
                words: 1
            })
    );
    assert!(rt;
        refused(alloc, &[1649971133184816800, 44483])
            == Some(UnpackFault::Length {
                stated: 1649971133184816800,
                words: 1
            })
    );
    assert!(rt; refused(alloc, &[8, 728989580745546677]) == Some(UnpackFault::Utf8));
    assert!(rt;
        refused(
            alloc,
            &[
                24,
                10128771417287729136,
                13322963553595990000,
                7533319193307440319,
                576855918464881826
            ]
        ) == Some(UnpackFault::Length {
            stated: 24,
            words: 4
        })
    );
    assert!(rt;
        refused(alloc, &[3, 9288164, 2705129297007298101])
            == Some(UnpackFault::Length {
                stated: 3,
                words: 2
            })
    );
    assert!(rt; refused(alloc, &[7, 17521232907932970092]) == Some(UnpackFault::Padding));
    assert!(rt;
        refused(
            alloc,
            &[
                20,
                11353750516771364848,
                7810546615081541616,
                2861604848,
                7045918367895157622
            ]
        ) == Some(UnpackFault::Length {
            stated: 20,
            words: 4
        })
    );
}

#[test]
fn more_random_tables(rt: HostRuntime) {
    let alloc = rt.alloc();
    assert!(rt; refused(alloc, &[4, 9953414733303004529]) == Some(UnpackFault::Padding));
    assert!(rt;
        refused(alloc, &[22, 34511169865234916])
            == Some(UnpackFault::Length {
                stated: 22,
                words: 1
            })
    );
    assert!(rt;
        refused(alloc, &[9, 14097044959616036966, 169, 15509207660203807297])
            == Some(UnpackFault::Length {
                stated: 9,
                words: 3
            })
    );
    assert!(rt; refused(alloc, &[9, 7166515156421227203, 262242]) == Some(UnpackFault::Padding));
    assert!(rt;
        refused(alloc, &[7, 29734891356469476, 14003115981684430227])
            == Some(UnpackFault::Length {
                stated: 7,
                words: 2
            })
    );
    assert!(rt; refused(alloc, &[7, 33489363218649289]) == Some(UnpackFault::Utf8));
    assert!(rt;
        refused(
            alloc,
            &[
                16,
                17337891682079193572,
                11065520139446292639,
                46646663377362928
            ]
        ) == Some(UnpackFault::Length {
            stated: 16,
            words: 3
        })
    );
    assert!(rt;
        refused(alloc, &[43, 12590345672368370883, 113849124515949])
            == Some(UnpackFault::Length {
                stated: 43,
                words: 2
            })
    );
}
