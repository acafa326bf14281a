//! A packed static type over generated tables, which `tools/static_type.py` wrote.

#[cfg(test)]
use string_cache::static_sets::{StaticTables, are_perfect};
#[cfg(test)]
use string_cache::word::pack_inline_word;
use string_cache::{Atom, Packed, PackedAtomSet, PackedStrSet};

/// The pairs of displacements.
#[rattlefmt::skip]
pub static PAGE_NAMES_DISPS: [(u32, u32); 99] = [
    (0, 0), (0, 174), (0, 242), (1, 421), (0, 206), (1, 12), (0, 1), (0, 206), (0, 13), (0, 12),
    (0, 9), (0, 1), (2, 138), (0, 2), (2, 36), (0, 1), (0, 1), (0, 127), (0, 37), (0, 6), (0, 54),
    (1, 402), (0, 184), (0, 30), (4, 65), (0, 387), (0, 3), (0, 2), (0, 10), (0, 13), (1, 140),
    (0, 25), (0, 386), (0, 13), (0, 11), (0, 4), (0, 52), (0, 87), (0, 72), (4, 416), (1, 74),
    (0, 2), (4, 94), (3, 143), (0, 51), (1, 461), (6, 201), (0, 4), (0, 334), (0, 98), (0, 8),
    (3, 435), (0, 0), (0, 476), (1, 452), (0, 35), (0, 91), (6, 489), (0, 154), (0, 1), (3, 220),
    (1, 63), (3, 12), (0, 9), (1, 345), (0, 88), (0, 14), (0, 37), (21, 253), (0, 2), (0, 235),
    (1, 210), (0, 0), (1, 125), (0, 67), (0, 414), (16, 183), (0, 4), (0, 0), (0, 76), (0, 162),
    (0, 0), (0, 18), (0, 130), (2, 137), (0, 3), (2, 466), (0, 219), (0, 14), (0, 42), (0, 401),
    (0, 54), (0, 468), (0, 0), (7, 86), (0, 21), (13, 330), (0, 114), (14, 189),
];

/// The texts, one after another.
#[rattlefmt::skip]
pub static PAGE_NAMES_TEXT: &str = "aria-livestroke-widthtext-renderingonpagehidefontstyleondragovertext-anchordefinition-srconfocusinxlink:arcroleforeignObjectonchangefeSpotLightconditionflood-colorondatasetchangedsurfaceScaleonbeforeupdatevert-origin-xautoplayfont-face-formatrepeatDurintegersonmouseentermarginheightaria-invalidfeComponentTransferfont-size-adjustlinethicknessrepeat-minunits-per-emsubscriptshiftouterproducthidefocusaria-multilinearia-relevantaria-pressedoptgrouprepeat-maxonmousemovelowlimitcolumnspandraggablepropertytransposemozbrowseraria-selectedaria-dropeffectnaturalnumbersedgeModeonmoveendfontfamilyaria-setsizeformmethodadditiverepeat-startmarker-endautosubmitmathcolorquotientspellcheckreversedmaskContentUnitsviewTargetxChannelSelectorfactorialaria-multiselectablecap-heighttemplatevectorproductselectedaria-labelledbyonfocusoutonforminputtabindexaccent-heightmathematicalonmouseleavematrixrowaria-expandedgradientUnitsoccurrencedivergencefilterRespathLengthonrepeatdefinitionURLfeOffsetfePointLightscriptsizemultiplieronmouseupscriptlevelfactorofcolgroupframeborderondragdroplengthAdjustkernelMatrixbasefontglyph-orientation-horizontalimaginaryionrowexitfeTurbulenceonkeydownglyphRefelevationunicode-bidionbeforeactivatev-mathematicalfont-weightaria-readonlyaria-templateidaria-secretrequiredcontentStyleTypeonstoragecolor-interpolationoperatoronlosecapturesemanticsshape-renderingautocompleteeulergammarationalsmathvariantcolumnlinesenable-backgrounddownloadcolor-profilefieldsetplaintextveryverythinmathspaceonmouseoutstroke-dasharrayaria-describedbyitemtypeonbefordeactivatetext-decorationdataformatasfeSpecularLightingexternalResourcesRequiredonrowsdeletemissing-glyphoncontrolselectonsubmitdominant-baselinearia-valuenowencodingmaligngroupaltGlyphItemideographicv-hangingfeConvolveMatrixcodebasepointer-eventsinterceptoncellchangeondeactivateexponentialecalcModeondblclickletter-spacingoncontextmenuonpropertychangecontrollerchangenumOctavesline-heightxlink:showannotation-xmlaria-busyblockquotefeDisplacementMapkernelUnitLengthformenctypeonrowenterstitchTilesclip-ruleonpopstateitemproponmousedowntransformfigcaptionvarianceitemscopemulticolondataavailablefont-stylemaskUnitsprimitiveUnitsstroke-miterlimitoverline-thicknesskeyTimeslinebreakaria-flowtooninvalidscalarproductspecularExponentaria-disabledxlink:typebackgroundfeDiffuseLightingpartialdiffmovablelimitsonbeforeeditfocusstroke-linejoinmalignmarkrowspacinghoriz-adv-xconjugatealphabeticnotsubsetfill-ruleonreadystatechangeautofocusunicode-rangeunderline-positionunselectableequalrowsaria-channelsystemLanguagemencloseframesetscrolldelayarabic-formvert-adv-ycellspacingword-spacingcontentScriptTyperadialGradientonbeforepastemarkerUnitsmarkerHeightaria-datatypearia-autocompletescrollingonselectstartfeMorphologyonresizestatechangelanguagemomentaboutx-heightrequiredExtensionsformactionlistenerstartOffsetpointsAtZdomainofapplicationplaceholderstroke-linecapanimateTransformrepeat-templatearia-atomiconbeforecopyonfilterchangelimitingConeAnglehreflangstop-coloronrowsinsertedmenuitemwriting-modefilterUnitscomplexesonbeforeunloadonbeforeprintfeColorMatrixdisabledannotationbaseline-shiftselectionpatternUnitscodomainrepeatCountequivalentintersectspecularConstantspreadMethodtranslategroupalignaria-sortalignmentscopealignment-baselineonmousewheelpolylinearia-haspopupmarkerWidthrowalignimaginaryaccept-charsetaria-valuemaxfeGaussianBlurdeterminantoverflowondragleaveclipPathUnitsnotationthickmathspacecodetypefeDistantLightonkeypressinputmodemanifestcrossoriginxmlns:xlinkintegritystdDeviationonhashchangeonlanguagechangecolumnaligncontextmenuonselectondragendcartesianproductv-alphabeticaccentunderaria-grabonformchangehoriz-origin-ylighting-coloranimateMotiononactivatelaplaciansymmetriconmouseoverstop-opacityhoriz-origin-xminlengthzoomAndPanmediummathspaceglyph-nametextLengthfeCompositeonfinishcolor-renderingreferrerpolicyattributeNamemarginwidthprsubsetsolidcoloraria-ownsattributeTypestretchydirectionv-ideographicunderline-thicknessononlinemarker-startondragenterstrikethrough-positionradiogroupmprescriptsprefetchcolumnspacingglyph-orientation-verticalseamlessfont-sizeintervalfont-familyaria-activedescendantfeMergeNodearia-requiredinfinitykeySplinesmathbackgroundaria-valueminpointsAtYbaseProfilefontsizenotprsubsetscriptminsizefont-variantseparatorsonbouncexml:langclip-pathonunloadonbeforecutreadonlyprogressonpageshowyChannelSelectorseparatorstrikethrough-thicknesspreserveAlphakeyPointsmunderoverpreserveAspectRatiofill-opacityfont-face-nameonafterupdateactiontypecontrolsnotanumbertextPathtableValuesdisplaystylenoframesamplitudestroke-opacitymmultiscriptspatternTransformselectorpatternContentUnitsdecodingsuperscriptshiftverythickmathspacevaluetypeonmessagefont-face-uricontenteditablemathsizeonafterprintnovalidateaccumulatealtGlypharia-levelformtargetdiffuseConstantondragstartaccesskeypiecewiseequalcolumnsformnovalidatearia-hiddennomodulearia-posinsetcolumnwidthpanose-1rowlinesanimateColorclipPathverythinmathspacecolor-interpolation-filtersmultiplelinearGradientorientationoverline-positionnoresizeonofflinevert-origin-ygradientTransformflood-opacitymlabeledtrxml:spaceveryverythickmathspacearia-controlsstroke-dashoffsetspecificationonscrolldatetimeonmovestarttextareaxlink:actuatebevelledexponentxml:basefont-faceanimationmetadataxlink:titlebaseFrequencydatatemplateemptysetdatalistfontweightvisibilityxlink:hrefallowfullscreenfeDropShadowmarker-midnoscriptcellpaddingbaselinexlink:rolerequiredFeaturesmphantomotherwiseframespacingmaxlengthfont-stretchthinmathspaceirrelevantonerrorupdatehttp-equivrendering-intentaltGlyphDefondatasetcompletefont-face-srcimage-renderinglongdescaria-checkedpointsAtX";

/// Where each text begins and ends, in bytes.
#[rattlefmt::skip]
pub static PAGE_NAMES_SPANS: [(u32, u32); 492] = [
    (0, 9), (9, 21), (21, 35), (35, 45), (45, 54), (54, 64), (64, 75), (75, 89), (89, 98),
    (98, 111), (111, 124), (124, 132), (132, 143), (143, 152), (152, 163), (163, 179), (179, 191),
    (191, 205), (205, 218), (218, 226), (226, 242), (242, 251), (251, 259), (259, 271), (271, 283),
    (283, 295), (295, 314), (314, 330), (330, 343), (343, 353), (353, 365), (365, 379), (379, 391),
    (391, 400), (400, 414), (414, 427), (427, 439), (439, 447), (447, 457), (457, 468), (468, 476),
    (476, 486), (486, 495), (495, 503), (503, 512), (512, 522), (522, 535), (535, 550), (550, 564),
    (564, 572), (572, 581), (581, 591), (591, 603), (603, 613), (613, 621), (621, 633), (633, 643),
    (643, 653), (653, 662), (662, 670), (670, 680), (680, 688), (688, 704), (704, 714), (714, 730),
    (730, 739), (739, 759), (759, 769), (769, 777), (777, 790), (790, 798), (798, 813), (813, 823),
    (823, 834), (834, 842), (842, 855), (855, 867), (867, 879), (879, 888), (888, 901), (901, 914),
    (914, 924), (924, 934), (934, 943), (943, 953), (953, 961), (961, 974), (974, 982), (982, 994),
    (994, 1014), (1014, 1023), (1023, 1034), (1034, 1042), (1042, 1050), (1050, 1061),
    (1061, 1071), (1071, 1083), (1083, 1095), (1095, 1103), (1103, 1131), (1131, 1141),
    (1141, 1150), (1150, 1162), (1162, 1171), (1171, 1179), (1179, 1188), (1188, 1200),
    (1200, 1216), (1216, 1230), (1230, 1241), (1241, 1254), (1254, 1269), (1269, 1280),
    (1280, 1288), (1288, 1304), (1304, 1313), (1313, 1332), (1332, 1340), (1340, 1353),
    (1353, 1362), (1362, 1377), (1377, 1389), (1389, 1399), (1399, 1408), (1408, 1419),
    (1419, 1430), (1430, 1447), (1447, 1455), (1455, 1468), (1468, 1476), (1476, 1485),
    (1485, 1506), (1506, 1516), (1516, 1532), (1532, 1548), (1548, 1556), (1556, 1573),
    (1573, 1588), (1588, 1600), (1600, 1618), (1618, 1643), (1643, 1655), (1655, 1668),
    (1668, 1683), (1683, 1691), (1691, 1708), (1708, 1721), (1721, 1729), (1729, 1740),
    (1740, 1752), (1752, 1763), (1763, 1772), (1772, 1788), (1788, 1796), (1796, 1810),
    (1810, 1819), (1819, 1831), (1831, 1843), (1843, 1855), (1855, 1863), (1863, 1873),
    (1873, 1887), (1887, 1900), (1900, 1916), (1916, 1932), (1932, 1942), (1942, 1953),
    (1953, 1963), (1963, 1977), (1977, 1986), (1986, 1996), (1996, 2013), (2013, 2029),
    (2029, 2040), (2040, 2050), (2050, 2061), (2061, 2070), (2070, 2080), (2080, 2088),
    (2088, 2099), (2099, 2108), (2108, 2118), (2118, 2126), (2126, 2135), (2135, 2143),
    (2143, 2158), (2158, 2168), (2168, 2177), (2177, 2191), (2191, 2208), (2208, 2226),
    (2226, 2234), (2234, 2243), (2243, 2254), (2254, 2263), (2263, 2276), (2276, 2292),
    (2292, 2305), (2305, 2315), (2315, 2325), (2325, 2342), (2342, 2353), (2353, 2366),
    (2366, 2383), (2383, 2398), (2398, 2408), (2408, 2418), (2418, 2429), (2429, 2438),
    (2438, 2448), (2448, 2457), (2457, 2466), (2466, 2484), (2484, 2493), (2493, 2506),
    (2506, 2524), (2524, 2536), (2536, 2545), (2545, 2557), (2557, 2571), (2571, 2579),
    (2579, 2587), (2587, 2598), (2598, 2609), (2609, 2619), (2619, 2630), (2630, 2642),
    (2642, 2659), (2659, 2673), (2673, 2686), (2686, 2697), (2697, 2709), (2709, 2722),
    (2722, 2739), (2739, 2748), (2748, 2761), (2761, 2773), (2773, 2781), (2781, 2792),
    (2792, 2800), (2800, 2811), (2811, 2819), (2819, 2837), (2837, 2847), (2847, 2855),
    (2855, 2866), (2866, 2875), (2875, 2894), (2894, 2905), (2905, 2919), (2919, 2935),
    (2935, 2950), (2950, 2961), (2961, 2973), (2973, 2987), (2987, 3004), (3004, 3012),
    (3012, 3022), (3022, 3036), (3036, 3044), (3044, 3056), (3056, 3067), (3067, 3076),
    (3076, 3090), (3090, 3103), (3103, 3116), (3116, 3124), (3124, 3134), (3134, 3148),
    (3148, 3157), (3157, 3169), (3169, 3177), (3177, 3188), (3188, 3198), (3198, 3207),
    (3207, 3223), (3223, 3235), (3235, 3244), (3244, 3254), (3254, 3263), (3263, 3277),
    (3277, 3295), (3295, 3307), (3307, 3315), (3315, 3328), (3328, 3339), (3339, 3347),
    (3347, 3356), (3356, 3370), (3370, 3383), (3383, 3397), (3397, 3408), (3408, 3416),
    (3416, 3427), (3427, 3440), (3440, 3448), (3448, 3462), (3462, 3470), (3470, 3484),
    (3484, 3494), (3494, 3503), (3503, 3511), (3511, 3522), (3522, 3533), (3533, 3542),
    (3542, 3554), (3554, 3566), (3566, 3582), (3582, 3593), (3593, 3604), (3604, 3612),
    (3612, 3621), (3621, 3637), (3637, 3649), (3649, 3660), (3660, 3669), (3669, 3681),
    (3681, 3695), (3695, 3709), (3709, 3722), (3722, 3732), (3732, 3741), (3741, 3750),
    (3750, 3761), (3761, 3773), (3773, 3787), (3787, 3796), (3796, 3806), (3806, 3821),
    (3821, 3831), (3831, 3841), (3841, 3852), (3852, 3860), (3860, 3875), (3875, 3889),
    (3889, 3902), (3902, 3913), (3913, 3921), (3921, 3931), (3931, 3940), (3940, 3953),
    (3953, 3961), (3961, 3970), (3970, 3983), (3983, 4002), (4002, 4010), (4010, 4022),
    (4022, 4033), (4033, 4055), (4055, 4065), (4065, 4076), (4076, 4084), (4084, 4097),
    (4097, 4123), (4123, 4131), (4131, 4140), (4140, 4148), (4148, 4159), (4159, 4180),
    (4180, 4191), (4191, 4204), (4204, 4212), (4212, 4222), (4222, 4236), (4236, 4249),
    (4249, 4258), (4258, 4269), (4269, 4277), (4277, 4288), (4288, 4301), (4301, 4313),
    (4313, 4323), (4323, 4331), (4331, 4339), (4339, 4348), (4348, 4356), (4356, 4367),
    (4367, 4375), (4375, 4383), (4383, 4393), (4393, 4409), (4409, 4418), (4418, 4441),
    (4441, 4454), (4454, 4463), (4463, 4473), (4473, 4492), (4492, 4504), (4504, 4518),
    (4518, 4531), (4531, 4541), (4541, 4549), (4549, 4559), (4559, 4567), (4567, 4578),
    (4578, 4590), (4590, 4598), (4598, 4607), (4607, 4621), (4621, 4634), (4634, 4650),
    (4650, 4658), (4658, 4677), (4677, 4685), (4685, 4701), (4701, 4719), (4719, 4728),
    (4728, 4737), (4737, 4750), (4750, 4765), (4765, 4773), (4773, 4785), (4785, 4795),
    (4795, 4805), (4805, 4813), (4813, 4823), (4823, 4833), (4833, 4848), (4848, 4859),
    (4859, 4868), (4868, 4877), (4877, 4889), (4889, 4903), (4903, 4914), (4914, 4922),
    (4922, 4935), (4935, 4946), (4946, 4954), (4954, 4962), (4962, 4974), (4974, 4982),
    (4982, 4999), (4999, 5026), (5026, 5034), (5034, 5048), (5048, 5059), (5059, 5076),
    (5076, 5084), (5084, 5093), (5093, 5106), (5106, 5123), (5123, 5136), (5136, 5146),
    (5146, 5155), (5155, 5177), (5177, 5190), (5190, 5207), (5207, 5220), (5220, 5228),
    (5228, 5236), (5236, 5247), (5247, 5255), (5255, 5268), (5268, 5276), (5276, 5284),
    (5284, 5292), (5292, 5301), (5301, 5310), (5310, 5318), (5318, 5329), (5329, 5342),
    (5342, 5354), (5354, 5362), (5362, 5370), (5370, 5380), (5380, 5390), (5390, 5400),
    (5400, 5415), (5415, 5427), (5427, 5437), (5437, 5445), (5445, 5456), (5456, 5464),
    (5464, 5474), (5474, 5490), (5490, 5498), (5498, 5507), (5507, 5519), (5519, 5528),
    (5528, 5540), (5540, 5553), (5553, 5563), (5563, 5576), (5576, 5586), (5586, 5602),
    (5602, 5613), (5613, 5630), (5630, 5643), (5643, 5658), (5658, 5666), (5666, 5678),
    (5678, 5687),
];

/// The number that an atom of each text hashes as.
#[rattlefmt::skip]
pub static PAGE_NAMES_HASHES: [u64; 492] = [
    0x1d7c_3a45_af89_7ced, 0x3a78_c328_eeb4_04be, 0xbe5d_33eb_34b3_8028, 0xf846_c992_d680_bb82,
    0xb2ba_6358_e72b_f586, 0x1354_db06_43da_a74b, 0x6b15_8f9c_8629_bb77, 0x8f92_29a1_2592_be86,
    0x9460_ac1d_7e92_e9e2, 0xcedf_9a87_1aeb_2614, 0xc5d2_f473_fe83_f5be, 0xb4d3_6aec_dcb1_f3ee,
    0x9b26_aefe_c709_0f48, 0xf4e0_bf5d_8d42_b910, 0xf706_8dc7_6861_749c, 0xc122_80f0_0f35_ee55,
    0xa75c_1d57_7f60_485d, 0xcc3c_6b21_ef80_3fd7, 0xad51_4ba1_f292_8b5a, 0x2553_09bc_e695_ec20,
    0xa9d8_67ed_2c9d_86b1, 0x0210_75e1_fbde_a183, 0x5705_da90_3219_e1ac, 0x264c_bf18_c432_4dc6,
    0x3eee_8a2a_71a8_1264, 0x558a_4e31_4c4a_a62d, 0x28db_2222_ccb5_4fda, 0x715c_9971_887d_3881,
    0x8caf_cf57_142e_0c6b, 0x6c8e_f51d_40b6_2164, 0x48e1_b767_ba51_1315, 0x8028_0daf_bf28_c7e2,
    0x5562_e594_5b00_8f59, 0xab3c_f748_7a84_0893, 0xa612_b50d_ee44_3b34, 0x19cc_c400_d335_a0e8,
    0xa328_b9b2_c2f7_6ed5, 0xfdbf_18e5_3c86_bc1f, 0x0f7a_9cc6_1354_2fef, 0x008d_3e2a_63cc_f098,
    0x30b7_9d8c_7455_e898, 0xf8e3_8803_431e_877f, 0x33bd_2322_c57f_2c21, 0x6c04_8bdf_cbf3_1401,
    0x7e5d_5b3f_1004_00e2, 0xc1b7_7b16_c7f9_9dee, 0xda48_3c22_c8a7_6832, 0xc1aa_edd5_6acd_9302,
    0xe110_064c_603f_a950, 0x2500_688d_8a7f_5089, 0x0666_450f_ef54_da17, 0x30f0_551c_1dbc_651c,
    0xb1fd_247a_816d_f2fc, 0x6263_b71e_0167_449c, 0x7e95_f452_b94c_72f7, 0xa523_dfb3_2b76_f451,
    0x0748_266a_507d_6e7d, 0xd911_5fdc_b5b6_70d0, 0x6773_789f_4e89_9c40, 0x4fb8_bc6f_bf01_188f,
    0xfb05_f03b_527d_dbd4, 0xd2b2_b0bb_5540_b413, 0x9b9f_ddcb_9a76_1f7b, 0xe6e6_dae0_fc0a_749b,
    0x9b5e_9c83_ee5c_76eb, 0xd7fc_1383_2f17_c380, 0xde1d_f517_5848_dab0, 0x468c_5d0c_fa77_6062,
    0xf50d_b3d0_c04b_0e2c, 0x2780_e0a7_f59a_a9b4, 0x73a5_1625_bec0_886d, 0xb823_837f_c5f8_87bf,
    0x52ce_2d4f_7b1c_7828, 0x7e8f_ab17_3b4f_c264, 0x624a_cd76_da74_f105, 0x4e7b_39c3_147d_eb65,
    0xf36e_c9c3_bf8d_61e4, 0x6af0_678e_87a7_2d62, 0xb9a0_fc3d_5216_238c, 0x5902_c057_0a73_36f0,
    0x4d8f_452f_0487_382d, 0x492a_d32a_3db0_835e, 0x6720_d963_4439_2091, 0x0137_d01f_510c_2ed0,
    0xef65_5035_3f6f_d497, 0x326e_00a0_dd64_f2e4, 0x23eb_a768_1d85_7085, 0xb318_deed_efaf_c93c,
    0x9c70_8f6c_ec5f_9820, 0x1702_7854_21e3_d558, 0xc218_e7f3_ae48_8f37, 0x720f_f94a_3640_f477,
    0x2f4d_625b_8c94_012b, 0xc212_cb28_033e_5d8c, 0xe200_da25_5306_c8ff, 0xb373_38f3_1622_a83b,
    0xb87d_fecf_b3d1_8fab, 0x4158_c3fd_c44b_f6cb, 0x0d32_8539_a71a_e119, 0x1c5d_0e2b_1d01_bde9,
    0x70c8_937d_5ddb_d9a3, 0x7c48_6fdc_14cb_e1c0, 0x5361_f1af_3119_ed3a, 0x09cf_66c9_313a_bb45,
    0x33e7_063b_85d6_f62d, 0xe354_33d1_0f56_aef0, 0xc263_0c5f_84a2_e2cb, 0xc6f4_041a_be52_3fb9,
    0x899b_01a0_c1a6_a095, 0x782e_2fdb_3d02_ec0c, 0x715e_b427_5f92_f2c1, 0xbc92_5fc9_bd3f_9128,
    0x155d_ba10_c656_7f20, 0xaed1_77e4_cb0a_d2b0, 0xe0ce_5890_3e28_a2c4, 0x72f1_b45f_b981_6f2d,
    0x91f4_be04_bc3a_6265, 0x5616_5b91_5991_934e, 0x758c_88bd_f731_a20a, 0x745a_dbc4_6da7_5b87,
    0xdd59_87d8_8d23_735e, 0x6adb_8482_4b45_0632, 0x0b0f_6be0_bc1e_e704, 0x2a56_2cc2_ad96_3364,
    0xa1bd_0a94_c153_fb62, 0x3d32_06cd_3012_84d5, 0x0d7f_a5bc_2b6f_4222, 0x81d2_3d1f_2b95_0ead,
    0x9766_59f2_db18_23f2, 0x3c07_4ae2_c1c9_f84f, 0x2f41_2c4b_c5a5_ad22, 0x0630_19de_1484_0651,
    0x1ad4_cd77_aeca_e1b2, 0xebec_dad0_9598_f703, 0x54fb_a438_78b0_4ff9, 0x5f45_549e_7cdd_5ccc,
    0x9f5a_b956_6528_e893, 0xa651_9ffa_cd5d_81cc, 0x4c33_f36c_5930_c070, 0xf8cc_0495_5390_c7a6,
    0x9313_2504_e47f_7529, 0x5adf_17de_dae5_0db3, 0xc19a_e5d3_6164_12e2, 0x6205_6336_cc22_7535,
    0xcc41_aeac_9004_f53e, 0xb798_aafa_b8af_d3cb, 0xb68d_adc5_d2dc_3626, 0x29a8_db75_e0c7_236c,
    0x5966_ca98_7126_aa46, 0x3626_e7d5_b049_1184, 0x27b4_4cb6_3a76_d7db, 0xdf5e_7315_d236_ae97,
    0x15ce_c9d2_8fe0_1a21, 0xd329_f1b8_df35_3642, 0xcc5b_fbc4_343e_7afe, 0x8a61_76d1_1695_1c0b,
    0xaa99_31eb_fd83_c0b0, 0x15bb_cf5a_cbd8_a296, 0x7622_b51d_6732_daee, 0x31f7_a7ae_1543_5562,
    0x9f5b_3d02_63aa_99e9, 0x9dbb_1d45_9a93_a7c1, 0x2038_4797_0b29_a4cf, 0x1568_7f9a_807b_4f65,
    0x258b_68db_e7b0_5ae0, 0x5046_5929_3a60_b576, 0x8285_5000_0a8b_45c8, 0x3835_c55d_3a9e_be85,
    0x34b1_fccc_5dbe_e1c4, 0x55ae_367f_5d7e_d78e, 0xfe8e_a144_fd65_76c8, 0xf1af_4719_0c00_9d97,
    0x542e_e4bc_7fad_03d9, 0xc5a0_0b16_db44_b36b, 0xdf94_9c22_2951_382a, 0x56b4_3d14_12de_63ab,
    0x9c8c_60a7_8c5f_aff1, 0xde67_7ecb_5144_080d, 0x0849_6b5f_40bb_4a8b, 0x7688_97de_0569_d4bd,
    0xe72f_91fb_5ffe_b5bf, 0x5083_f794_76e2_d47d, 0x91fc_be12_fa68_f9b7, 0xdce2_e79b_5394_3fa2,
    0xbda9_7b68_dd35_5189, 0x14bd_b223_80c1_fb04, 0x3c14_ad14_9a98_dfcb, 0x6310_9161_9fd4_a4b5,
    0x4561_93ef_6212_f899, 0x6fc0_1817_d36f_cdb3, 0xe168_2e8b_7830_3ac6, 0x52c3_656e_2252_029a,
    0x912d_93d6_e3b7_3a10, 0xe2ea_d18d_28f0_b0af, 0x21fb_f594_acac_2635, 0x5bb8_4f46_8dc8_2a22,
    0xdf4d_51c2_29e0_06b2, 0x456b_3fe6_aea1_5a1f, 0xcd88_aa2b_d6b0_aa0b, 0x8636_cbe6_0186_a80f,
    0xd42c_ca39_43bf_39a6, 0xcb31_d729_55b8_88a5, 0x9aa0_41b5_b58a_f5c6, 0xaa95_2581_eff3_7de7,
    0x0f76_c966_c090_03be, 0x545e_35f7_77ef_0721, 0x05f2_17cc_a65e_eb54, 0x70fa_7b6f_859b_f57e,
    0x53be_0e7d_6aef_e257, 0x4d23_c219_44ec_1485, 0x0624_bf9d_2a8e_6e56, 0x8c88_1d41_c960_a586,
    0xcdcd_9f65_7769_3956, 0x8e74_a855_9978_fb01, 0x3823_eec6_bcf3_3168, 0xcb8f_3692_75c7_9b4f,
    0x65db_9b65_b76c_d528, 0x8161_71b2_28ea_d948, 0x625d_d181_3c64_82ba, 0x78be_36ce_23f0_259b,
    0x5056_065f_7e6f_8d75, 0xfc27_868b_210f_2a88, 0x59cd_13d1_2977_d3ab, 0x19c7_3efa_da60_e171,
    0x1ab3_016c_feb7_d60a, 0x54e8_3d1b_b40b_8ffa, 0x16fb_ebf1_0ec4_5dd4, 0x8743_ea7c_6c88_8c0c,
    0x11ee_8b01_07f4_4b29, 0xf4bb_4bf0_ba83_d378, 0xcff1_87a4_2196_ae82, 0xf555_b132_747b_3935,
    0x9882_cb8e_8399_206f, 0xf5eb_ff9f_09c9_4ca2, 0x53e6_6fab_dfb8_b17f, 0xa388_f7d9_a3af_97b7,
    0x273d_d672_520e_3112, 0xceaa_25e8_95ec_ab0e, 0xd985_b41e_bee0_ff69, 0xf86c_9b87_8aba_0fac,
    0x1be1_bf06_efd2_2b52, 0x042d_bea2_285d_5e0f, 0x0fb3_7406_036b_a263, 0x37ce_6204_7eef_1852,
    0xba29_33d8_a62f_6230, 0x176d_89c1_0ccb_ae19, 0x7181_7fe3_d1ab_3d3b, 0xc9d3_1679_fc8e_14db,
    0xfec9_6fa6_b393_d967, 0x85f0_1482_0000_e485, 0x36fa_beb0_7300_5815, 0xd1fb_259d_b52c_53ae,
    0x834c_24cb_ba6a_afa1, 0x58aa_9756_0ee9_eb3d, 0x30e9_3e4d_72de_0090, 0x6587_a4c3_d93b_770c,
    0x4752_7b99_4e1c_359d, 0xc86b_03b4_6d53_de81, 0x0b2b_6a66_146c_f3f2, 0x3693_e59f_4a9f_835a,
    0xe9e4_a071_0620_52ac, 0xbe04_a757_1e06_5f42, 0x4f6c_9e90_be10_41b7, 0x7755_e613_6522_e1e5,
    0xadb4_0544_5329_0f30, 0x8ad7_e09d_b741_7c60, 0xd4cb_ea45_1790_7616, 0x6991_220c_0f75_66a7,
    0xa6db_a362_b166_eefe, 0xbea0_df48_c5be_e431, 0x261c_806d_aa60_9612, 0xe4fb_52c8_0a45_aad5,
    0x0ef7_a748_a81f_ae6d, 0x5137_df17_e69c_b993, 0x3539_4ebf_67dc_6bfe, 0x490c_ad00_1279_2124,
    0xb1aa_2ff2_2f0d_ab6c, 0x6dd7_2380_2a74_826c, 0x2727_16f0_cde8_8297, 0xecb4_45d6_52bc_c4d8,
    0x3dec_ed38_91ec_cd6a, 0xb64a_8ad6_2096_208c, 0x152b_eaa0_0b93_98ab, 0xe530_b670_2e6a_7645,
    0x147c_a76b_a9a0_95bc, 0xbf2f_de4e_2b19_9db7, 0xf1b0_4b5c_f929_86c1, 0x97d0_ca6e_0c10_3ca9,
    0x318e_53ad_f0e1_178e, 0xcc6e_e2fc_cf34_a712, 0x165c_4ff9_f7d0_8342, 0xc6ca_4ff8_e4a3_0fdb,
    0xbcfa_a3b8_1d89_99fc, 0x65db_1839_c4b4_aec9, 0xdcc7_6ef9_ab5a_211c, 0x1381_f95b_4373_7ab4,
    0x80f3_8d77_becf_7187, 0xe663_8e52_5303_8569, 0xb1f1_ebac_c63e_42e7, 0x4ba9_75d0_0246_42bb,
    0x7700_0da0_cc69_90d3, 0x5902_0c0c_38f5_c054, 0xaba5_c85d_a0c7_fea8, 0x134d_862e_3e36_db0a,
    0xc617_9b65_ede9_4094, 0x0a4f_30ac_3f2d_35bb, 0x3f1d_69c7_8cfa_d903, 0xbc4b_c03b_ebc9_6561,
    0xd08b_c674_1f7b_f019, 0xa423_8414_be6e_76c0, 0x3679_9709_88f8_da26, 0x29db_d043_2330_58a4,
    0x9207_0753_9a49_8652, 0xac1a_be4f_0ce1_fc44, 0xd0da_f792_5ecf_9ffe, 0x8dd8_cd4a_32b3_0736,
    0x334e_4fab_21f5_77ec, 0x88c8_2251_da0f_5088, 0x6f61_52bc_637c_e1f9, 0x5e0d_88c4_601f_edb0,
    0xdb96_eefc_0c1b_78b9, 0x8f06_91ca_11c0_3b8a, 0xf2a2_993e_4969_3ef0, 0x881f_4030_4737_d026,
    0x474a_960e_f097_89d7, 0x2b15_7883_4fbb_8da7, 0x4065_54e3_a530_45b6, 0x859f_8f8f_5d54_b5e9,
    0xec48_38e8_f4c7_751c, 0xed50_eb00_21f0_3aad, 0x120a_4855_bbdd_11c2, 0x94da_6cc3_5d68_3b29,
    0xad22_fe73_f351_b5fd, 0x57c5_6d6a_2b57_cac2, 0xab08_f869_14ca_d21d, 0x8255_ee6d_30c4_66cb,
    0x1427_49fb_11c9_5854, 0xa60a_14ce_75ab_d491, 0xbd5e_f21d_5fc3_c22b, 0x2cea_e988_28b8_9bb2,
    0xa032_4827_9a3a_1629, 0xfce9_4b49_e3c8_0f34, 0xed3b_cc25_7aa6_f2ee, 0x050a_9d85_a7c6_4174,
    0xd1d3_d931_2b29_073b, 0xc7be_08e7_5b56_4bd1, 0xb2df_926d_e666_a158, 0x76fc_0cdf_3d1f_42b9,
    0xd4f8_0b46_948a_c86b, 0x9f5a_67f3_c739_8bd8, 0xd11b_c46f_bc3b_d42c, 0x4d9d_371d_1ed9_0748,
    0x87d4_54d4_7ecb_7d65, 0xede6_ec24_c5dc_0aa0, 0xf587_656a_b319_016a, 0xae6c_be88_5c03_1eff,
    0x7270_610e_3ba3_593f, 0x95e7_d63a_6335_dfd9, 0x053b_77c0_3053_6dc8, 0xaae4_7904_074a_c5f4,
    0x53eb_4b50_ac1c_7207, 0x307f_3689_cab5_c8eb, 0xea05_4938_f94b_54e4, 0xf751_9350_ed52_cf96,
    0xec08_cd25_963b_0d72, 0x5da7_8949_44d7_2c4c, 0xd7c9_48b2_8fd3_0d57, 0xea22_4ab9_75aa_8b18,
    0x7477_5a3a_ae1d_e647, 0x6586_ea57_bf6d_f700, 0xa1ea_34e4_794b_7176, 0xc75c_e389_e670_5cf9,
    0xf86e_59fb_ca29_8f2a, 0xd9aa_5dc8_9d2a_d9d3, 0x4810_0410_e2b1_2d21, 0xc308_c89c_73f9_56f8,
    0xbd7f_33c6_a4d7_3f67, 0xf011_4a4b_5eda_4feb, 0x0f7f_9652_4fd9_17e0, 0x4d32_6333_280f_7c17,
    0x019d_c9ea_8721_52a9, 0x777c_a7b6_e082_6b30, 0x2e34_220d_719b_15c6, 0xbb7b_7aae_86de_8c9d,
    0x9171_7b15_6a83_a23b, 0xe643_3de3_2bb1_864b, 0xffde_5c2b_2d2a_8d33, 0xf617_b694_8906_0bac,
    0x6aa7_838c_5fe6_4f11, 0x99eb_3796_a08b_139f, 0x529b_8508_3858_db68, 0xbac4_1dec_50fb_021f,
    0xc0ad_a856_e54c_be75, 0x0a65_6f15_6b53_6a32, 0x1aa3_4f60_5e0d_4992, 0x69c4_7228_a0cf_9047,
    0xc422_eb9e_796d_2103, 0xf969_dfa9_ba49_8e46, 0x3884_66e8_4ba4_0f11, 0xcbae_4469_5d9a_4918,
    0x3e53_affb_1752_8941, 0x5c03_99ab_15b3_e9ad, 0x345c_f9c8_d01d_eb43, 0xd5bd_22e3_5e81_f5ad,
    0xa81b_1dcd_8724_98d0, 0x7e8f_9dea_21a2_9e80, 0xdae0_8c16_086c_307c, 0x2c9c_4923_2921_1b1b,
    0x990f_afee_01f7_f841, 0x0b43_5fce_2dc9_548a, 0xf65d_5af6_04cd_1922, 0x41b3_eab1_ffc8_ea18,
    0xe998_91d8_1029_f2f8, 0x0f26_e37b_10cc_cf1a, 0xc505_717c_319d_8bfc, 0xb340_59cd_4eea_b68e,
    0xf653_7ddb_ac18_b0fd, 0x5cd3_8292_79c5_a802, 0xfce4_fce2_a120_7819, 0x3ebd_6f3e_884c_f968,
    0xd270_04b0_b467_08c7, 0xb4e4_5681_ace8_9ef0, 0x78b7_0368_cf4b_4af0, 0x8d49_1040_c23e_e31f,
    0x5de6_4354_99aa_de66, 0x7955_f0a2_50b1_f277, 0x4525_17b6_5a76_dca5, 0xb494_7c30_87af_a48f,
    0xeeba_9405_77c9_e3b2, 0x7600_bcbd_4464_82a6, 0xa356_ed5d_33d3_b50c, 0x4e04_c767_bd5f_214a,
    0x953d_e4c3_6e75_c5ca, 0xacec_dd38_0e68_93ce, 0xdee8_f33c_e651_327f, 0x8838_e4e0_d103_e935,
    0x2eaa_1fa6_3a52_7bf1, 0xf953_06c3_87d1_059c, 0x17be_765b_5b1d_42f4, 0xec44_575d_0a70_a3c9,
    0x4751_3390_fe45_a769, 0xcbfa_a8ec_ad4a_41ee, 0x8fd1_116e_d0ed_5cd8, 0x0ffd_9a89_8cf1_53f7,
    0x17fa_adaa_79a2_9f0c, 0x9a36_b364_5abd_8bc5, 0x3d10_99f2_04cd_f927, 0x27c8_abdb_b8fc_3bce,
    0x48a1_0ee4_14e1_19f9, 0x921e_18d4_a00f_bd92, 0xd6e3_f9f1_c118_dc2d, 0x0ccd_a95b_919a_5e9c,
    0x26ec_0185_61ac_b45b, 0x31af_d90d_571d_6cfc, 0xecfc_1d64_1f60_0ead, 0x4804_2aca_8d08_71b5,
    0x50a0_7876_b5b1_4ff3, 0x93b7_4ffd_6c9e_2801, 0xe8d4_80b8_04e8_45fb, 0x3ef7_b230_245c_8b50,
    0xaa1b_4233_2ab6_19f7, 0x9b85_36d1_8239_18f8, 0xfc26_6a15_fc1e_38dd, 0x6267_802a_1b82_8b49,
    0x8855_fee5_aa71_eb23, 0x2363_4134_9d38_f6dd, 0x1388_597c_32f9_697d, 0xad45_2c9a_12f4_90eb,
    0x909b_690d_955e_58cf, 0xaf0b_eee0_4157_5980, 0x940c_3a08_76e3_93f7, 0x02fe_69a1_2d97_a65b,
    0xf6a3_b1a6_115f_68d8, 0x91ea_b421_a132_f535, 0x3623_e3bc_6630_890a, 0xb1b5_5977_730a_aa5b,
    0xd470_dd88_16bf_5a11, 0x4003_6631_ba63_2288, 0x439a_38d0_e751_2a50, 0xed8b_6f83_7d78_ff60,
    0x58f5_742e_53f5_48d6, 0xd94b_dd61_018e_0788, 0x0ff2_cc73_1870_4ea1, 0xdec0_f8d7_21e6_aa90,
    0x5575_39b5_3f54_747b, 0xa942_ee28_4241_f866, 0x0c1f_0d03_5b25_717f, 0x5826_f542_241d_027e,
    0xe16f_e7de_99b4_87ac, 0xbc1b_4ab5_16d5_09a1, 0xb902_9d36_87b4_763f, 0xaa48_fa1d_0cd9_0c51,
];

/// The static type of these texts.
pub type PageNames = Packed<PageNamesTables>;

/// The tables of `PageNames`.
#[derive(PartialEq, Eq, PartialOrd, Ord)]
pub struct PageNamesTables;

/// An atom of it.
pub type PageName<'s> = Atom<'s, PageNames>;

/// The word of each name, which an atom's `unsafe_data` can be matched with.
impl PageNamesTables {
    /// Of "a".
    pub const A: u64 = 0x0000_0000_0000_6111;
    /// Of "abbr".
    pub const ABBR: u64 = 0x0000_0072_6262_6141;
    /// Of "abs".
    pub const ABS: u64 = 0x0000_0000_7362_6131;
    /// Of "accent".
    pub const ACCENT: u64 = 0x0074_6e65_6363_6161;
    /// Of "accent-height".
    pub const ACCENT_HEIGHT: u64 = 0x0000_004b_0000_0002;
    /// Of "accentunder".
    pub const ACCENTUNDER: u64 = 0x0000_013a_0000_0002;
    /// Of "accept".
    pub const ACCEPT: u64 = 0x0074_7065_6363_6161;
    /// Of "accept-charset".
    pub const ACCEPT_CHARSET: u64 = 0x0000_0120_0000_0002;
    /// Of "accesskey".
    pub const ACCESSKEY: u64 = 0x0000_01a3_0000_0002;
    /// Of "accumulate".
    pub const ACCUMULATE: u64 = 0x0000_019d_0000_0002;
    /// Of "acronym".
    pub const ACRONYM: u64 = 0x6d79_6e6f_7263_6171;
    /// Of "action".
    pub const ACTION: u64 = 0x006e_6f69_7463_6161;
    /// Of "actiontype".
    pub const ACTIONTYPE: u64 = 0x0000_0186_0000_0002;
    /// Of "active".
    pub const ACTIVE: u64 = 0x0065_7669_7463_6161;
    /// Of "actuate".
    pub const ACTUATE: u64 = 0x6574_6175_7463_6171;
    /// Of "additive".
    pub const ADDITIVE: u64 = 0x0000_0036_0000_0002;
    /// Of "address".
    pub const ADDRESS: u64 = 0x7373_6572_6464_6171;
    /// Of "align".
    pub const ALIGN: u64 = 0x0000_6e67_696c_6151;
    /// Of "alignment-baseline".
    pub const ALIGNMENT_BASELINE: u64 = 0x0000_0119_0000_0002;
    /// Of "alignmentscope".
    pub const ALIGNMENTSCOPE: u64 = 0x0000_0118_0000_0002;
    /// Of "alink".
    pub const ALINK: u64 = 0x0000_6b6e_696c_6151;
    /// Of "allowfullscreen".
    pub const ALLOWFULLSCREEN: u64 = 0x0000_01d3_0000_0002;
    /// Of "alphabetic".
    pub const ALPHABETIC: u64 = 0x0000_00d1_0000_0002;
    /// Of "alt".
    pub const ALT: u64 = 0x0000_0000_746c_6131;
    /// Of "altGlyph".
    pub const ALT_GLYPH: u64 = 0x0000_019e_0000_0002;
    /// Of "altGlyphDef".
    pub const ALT_GLYPH_DEF: u64 = 0x0000_01e5_0000_0002;
    /// Of "altGlyphItem".
    pub const ALT_GLYPH_ITEM: u64 = 0x0000_0095_0000_0002;
    /// Of "altimg".
    pub const ALTIMG: u64 = 0x0067_6d69_746c_6161;
    /// Of "alttext".
    pub const ALTTEXT: u64 = 0x7478_6574_746c_6171;
    /// Of "amplitude".
    pub const AMPLITUDE: u64 = 0x0000_018d_0000_0002;
    /// Of "and".
    pub const AND: u64 = 0x0000_0000_646e_6131;
    /// Of "animate".
    pub const ANIMATE: u64 = 0x6574_616d_696e_6171;
    /// Of "animateColor".
    pub const ANIMATE_COLOR: u64 = 0x0000_01ad_0000_0002;
    /// Of "animateMotion".
    pub const ANIMATE_MOTION: u64 = 0x0000_013f_0000_0002;
    /// Of "animateTransform".
    pub const ANIMATE_TRANSFORM: u64 = 0x0000_00fa_0000_0002;
    /// Of "animation".
    pub const ANIMATION: u64 = 0x0000_01c9_0000_0002;
    /// Of "annotation".
    pub const ANNOTATION: u64 = 0x0000_010b_0000_0002;
    /// Of "annotation-xml".
    pub const ANNOTATION_XML: u64 = 0x0000_00a8_0000_0002;
    /// Of "applet".
    pub const APPLET: u64 = 0x0074_656c_7070_6161;
    /// Of "apply".
    pub const APPLY: u64 = 0x0000_796c_7070_6151;
    /// Of "approx".
    pub const APPROX: u64 = 0x0078_6f72_7070_6161;
    /// Of "arabic-form".
    pub const ARABIC_FORM: u64 = 0x0000_00df_0000_0002;
    /// Of "arccos".
    pub const ARCCOS: u64 = 0x0073_6f63_6372_6161;
    /// Of "arccosh".
    pub const ARCCOSH: u64 = 0x6873_6f63_6372_6171;
    /// Of "arccot".
    pub const ARCCOT: u64 = 0x0074_6f63_6372_6161;
    /// Of "arccoth".
    pub const ARCCOTH: u64 = 0x6874_6f63_6372_6171;
    /// Of "arccsc".
    pub const ARCCSC: u64 = 0x0063_7363_6372_6161;
    /// Of "arccsch".
    pub const ARCCSCH: u64 = 0x6863_7363_6372_6171;
    /// Of "archive".
    pub const ARCHIVE: u64 = 0x6576_6968_6372_6171;
    /// Of "arcrole".
    pub const ARCROLE: u64 = 0x656c_6f72_6372_6171;
    /// Of "arcsec".
    pub const ARCSEC: u64 = 0x0063_6573_6372_6161;
    /// Of "arcsech".
    pub const ARCSECH: u64 = 0x6863_6573_6372_6171;
    /// Of "arcsin".
    pub const ARCSIN: u64 = 0x006e_6973_6372_6161;
    /// Of "arcsinh".
    pub const ARCSINH: u64 = 0x686e_6973_6372_6171;
    /// Of "arctan".
    pub const ARCTAN: u64 = 0x006e_6174_6372_6161;
    /// Of "arctanh".
    pub const ARCTANH: u64 = 0x686e_6174_6372_6171;
    /// Of "area".
    pub const AREA: u64 = 0x0000_0061_6572_6141;
    /// Of "arg".
    pub const ARG: u64 = 0x0000_0000_6772_6131;
    /// Of "aria-activedescendant".
    pub const ARIA_ACTIVEDESCENDANT: u64 = 0x0000_0166_0000_0002;
    /// Of "aria-atomic".
    pub const ARIA_ATOMIC: u64 = 0x0000_00fc_0000_0002;
    /// Of "aria-autocomplete".
    pub const ARIA_AUTOCOMPLETE: u64 = 0x0000_00e9_0000_0002;
    /// Of "aria-busy".
    pub const ARIA_BUSY: u64 = 0x0000_00a9_0000_0002;
    /// Of "aria-channel".
    pub const ARIA_CHANNEL: u64 = 0x0000_00da_0000_0002;
    /// Of "aria-checked".
    pub const ARIA_CHECKED: u64 = 0x0000_01ea_0000_0002;
    /// Of "aria-controls".
    pub const ARIA_CONTROLS: u64 = 0x0000_01bd_0000_0002;
    /// Of "aria-datatype".
    pub const ARIA_DATATYPE: u64 = 0x0000_00e8_0000_0002;
    /// Of "aria-describedby".
    pub const ARIA_DESCRIBEDBY: u64 = 0x0000_0086_0000_0002;
    /// Of "aria-disabled".
    pub const ARIA_DISABLED: u64 = 0x0000_00c5_0000_0002;
    /// Of "aria-dropeffect".
    pub const ARIA_DROPEFFECT: u64 = 0x0000_002f_0000_0002;
    /// Of "aria-expanded".
    pub const ARIA_EXPANDED: u64 = 0x0000_004f_0000_0002;
    /// Of "aria-flowto".
    pub const ARIA_FLOWTO: u64 = 0x0000_00c1_0000_0002;
    /// Of "aria-grab".
    pub const ARIA_GRAB: u64 = 0x0000_013b_0000_0002;
    /// Of "aria-haspopup".
    pub const ARIA_HASPOPUP: u64 = 0x0000_011c_0000_0002;
    /// Of "aria-hidden".
    pub const ARIA_HIDDEN: u64 = 0x0000_01a7_0000_0002;
    /// Of "aria-invalid".
    pub const ARIA_INVALID: u64 = 0x0000_0019_0000_0002;
    /// Of "aria-labelledby".
    pub const ARIA_LABELLEDBY: u64 = 0x0000_0047_0000_0002;
    /// Of "aria-level".
    pub const ARIA_LEVEL: u64 = 0x0000_019f_0000_0002;
    /// Of "aria-live".
    pub const ARIA_LIVE: u64 = 0x0000_0000_0000_0002;
    /// Of "aria-multiline".
    pub const ARIA_MULTILINE: u64 = 0x0000_0022_0000_0002;
    /// Of "aria-multiselectable".
    pub const ARIA_MULTISELECTABLE: u64 = 0x0000_0042_0000_0002;
    /// Of "aria-owns".
    pub const ARIA_OWNS: u64 = 0x0000_0153_0000_0002;
    /// Of "aria-posinset".
    pub const ARIA_POSINSET: u64 = 0x0000_01a9_0000_0002;
    /// Of "aria-pressed".
    pub const ARIA_PRESSED: u64 = 0x0000_0024_0000_0002;
    /// Of "aria-readonly".
    pub const ARIA_READONLY: u64 = 0x0000_006e_0000_0002;
    /// Of "aria-relevant".
    pub const ARIA_RELEVANT: u64 = 0x0000_0023_0000_0002;
    /// Of "aria-required".
    pub const ARIA_REQUIRED: u64 = 0x0000_0168_0000_0002;
    /// Of "aria-secret".
    pub const ARIA_SECRET: u64 = 0x0000_0070_0000_0002;
    /// Of "aria-selected".
    pub const ARIA_SELECTED: u64 = 0x0000_002e_0000_0002;
    /// Of "aria-setsize".
    pub const ARIA_SETSIZE: u64 = 0x0000_0034_0000_0002;
    /// Of "aria-sort".
    pub const ARIA_SORT: u64 = 0x0000_0117_0000_0002;
    /// Of "aria-templateid".
    pub const ARIA_TEMPLATEID: u64 = 0x0000_006f_0000_0002;
    /// Of "aria-valuemax".
    pub const ARIA_VALUEMAX: u64 = 0x0000_0121_0000_0002;
    /// Of "aria-valuemin".
    pub const ARIA_VALUEMIN: u64 = 0x0000_016c_0000_0002;
    /// Of "aria-valuenow".
    pub const ARIA_VALUENOW: u64 = 0x0000_0092_0000_0002;
    /// Of "article".
    pub const ARTICLE: u64 = 0x656c_6369_7472_6171;
    /// Of "ascent".
    pub const ASCENT: u64 = 0x0074_6e65_6373_6161;
    /// Of "aside".
    pub const ASIDE: u64 = 0x0000_6564_6973_6151;
    /// Of "async".
    pub const ASYNC: u64 = 0x0000_636e_7973_6151;
    /// Of "attributeName".
    pub const ATTRIBUTE_NAME: u64 = 0x0000_014f_0000_0002;
    /// Of "attributeType".
    pub const ATTRIBUTE_TYPE: u64 = 0x0000_0154_0000_0002;
    /// Of "audio".
    pub const AUDIO: u64 = 0x0000_6f69_6475_6151;
    /// Of "autocomplete".
    pub const AUTOCOMPLETE: u64 = 0x0000_0079_0000_0002;
    /// Of "autofocus".
    pub const AUTOFOCUS: u64 = 0x0000_00d5_0000_0002;
    /// Of "autoplay".
    pub const AUTOPLAY: u64 = 0x0000_0013_0000_0002;
    /// Of "autosubmit".
    pub const AUTOSUBMIT: u64 = 0x0000_0039_0000_0002;
    /// Of "axis".
    pub const AXIS: u64 = 0x0000_0073_6978_6141;
    /// Of "azimuth".
    pub const AZIMUTH: u64 = 0x6874_756d_697a_6171;
    /// Of "b".
    pub const B: u64 = 0x0000_0000_0000_6211;
    /// Of "background".
    pub const BACKGROUND: u64 = 0x0000_00c7_0000_0002;
    /// Of "base".
    pub const BASE: u64 = 0x0000_0065_7361_6241;
    /// Of "baseFrequency".
    pub const BASE_FREQUENCY: u64 = 0x0000_01cc_0000_0002;
    /// Of "baseProfile".
    pub const BASE_PROFILE: u64 = 0x0000_016e_0000_0002;
    /// Of "basefont".
    pub const BASEFONT: u64 = 0x0000_0062_0000_0002;
    /// Of "baseline".
    pub const BASELINE: u64 = 0x0000_01d8_0000_0002;
    /// Of "baseline-shift".
    pub const BASELINE_SHIFT: u64 = 0x0000_010c_0000_0002;
    /// Of "bbox".
    pub const BBOX: u64 = 0x0000_0078_6f62_6241;
    /// Of "bdi".
    pub const BDI: u64 = 0x0000_0000_6964_6231;
    /// Of "bdo".
    pub const BDO: u64 = 0x0000_0000_6f64_6231;
    /// Of "begin".
    pub const BEGIN: u64 = 0x0000_6e69_6765_6251;
    /// Of "bevelled".
    pub const BEVELLED: u64 = 0x0000_01c5_0000_0002;
    /// Of "bgcolor".
    pub const BGCOLOR: u64 = 0x726f_6c6f_6367_6271;
    /// Of "bgsound".
    pub const BGSOUND: u64 = 0x646e_756f_7367_6271;
    /// Of "bias".
    pub const BIAS: u64 = 0x0000_0073_6169_6241;
    /// Of "big".
    pub const BIG: u64 = 0x0000_0000_6769_6231;
    /// Of "blink".
    pub const BLINK: u64 = 0x0000_6b6e_696c_6251;
    /// Of "blockquote".
    pub const BLOCKQUOTE: u64 = 0x0000_00aa_0000_0002;
    /// Of "body".
    pub const BODY: u64 = 0x0000_0079_646f_6241;
    /// Of "border".
    pub const BORDER: u64 = 0x0072_6564_726f_6261;
    /// Of "br".
    pub const BR: u64 = 0x0000_0000_0072_6221;
    /// Of "button".
    pub const BUTTON: u64 = 0x006e_6f74_7475_6261;
    /// Of "bvar".
    pub const BVAR: u64 = 0x0000_0072_6176_6241;
    /// Of "by".
    pub const BY: u64 = 0x0000_0000_0079_6221;
    /// Of "calcMode".
    pub const CALC_MODE: u64 = 0x0000_009f_0000_0002;
    /// Of "canvas".
    pub const CANVAS: u64 = 0x0073_6176_6e61_6361;
    /// Of "cap-height".
    pub const CAP_HEIGHT: u64 = 0x0000_0043_0000_0002;
    /// Of "caption".
    pub const CAPTION: u64 = 0x6e6f_6974_7061_6371;
    /// Of "card".
    pub const CARD: u64 = 0x0000_0064_7261_6341;
    /// Of "cartesianproduct".
    pub const CARTESIANPRODUCT: u64 = 0x0000_0138_0000_0002;
    /// Of "ceiling".
    pub const CEILING: u64 = 0x676e_696c_6965_6371;
    /// Of "cellpadding".
    pub const CELLPADDING: u64 = 0x0000_01d7_0000_0002;
    /// Of "cellspacing".
    pub const CELLSPACING: u64 = 0x0000_00e1_0000_0002;
    /// Of "center".
    pub const CENTER: u64 = 0x0072_6574_6e65_6361;
    /// Of "char".
    pub const CHAR: u64 = 0x0000_0072_6168_6341;
    /// Of "charoff".
    pub const CHAROFF: u64 = 0x6666_6f72_6168_6371;
    /// Of "charset".
    pub const CHARSET: u64 = 0x7465_7372_6168_6371;
    /// Of "checked".
    pub const CHECKED: u64 = 0x6465_6b63_6568_6371;
    /// Of "ci".
    pub const CI: u64 = 0x0000_0000_0069_6321;
    /// Of "circle".
    pub const CIRCLE: u64 = 0x0065_6c63_7269_6361;
    /// Of "cite".
    pub const CITE: u64 = 0x0000_0065_7469_6341;
    /// Of "class".
    pub const CLASS: u64 = 0x0000_7373_616c_6351;
    /// Of "classid".
    pub const CLASSID: u64 = 0x6469_7373_616c_6371;
    /// Of "clear".
    pub const CLEAR: u64 = 0x0000_7261_656c_6351;
    /// Of "clip".
    pub const CLIP: u64 = 0x0000_0070_696c_6341;
    /// Of "clip-path".
    pub const CLIP_PATH: u64 = 0x0000_0176_0000_0002;
    /// Of "clip-rule".
    pub const CLIP_RULE: u64 = 0x0000_00b0_0000_0002;
    /// Of "clipPath".
    pub const CLIP_PATH_ELEMENT: u64 = 0x0000_01ae_0000_0002;
    /// Of "clipPathUnits".
    pub const CLIP_PATH_UNITS: u64 = 0x0000_0126_0000_0002;
    /// Of "close".
    pub const CLOSE: u64 = 0x0000_6573_6f6c_6351;
    /// Of "closure".
    pub const CLOSURE: u64 = 0x6572_7573_6f6c_6371;
    /// Of "cn".
    pub const CN: u64 = 0x0000_0000_006e_6321;
    /// Of "code".
    pub const CODE: u64 = 0x0000_0065_646f_6341;
    /// Of "codebase".
    pub const CODEBASE: u64 = 0x0000_0099_0000_0002;
    /// Of "codetype".
    pub const CODETYPE: u64 = 0x0000_0129_0000_0002;
    /// Of "codomain".
    pub const CODOMAIN: u64 = 0x0000_010f_0000_0002;
    /// Of "col".
    pub const COL: u64 = 0x0000_0000_6c6f_6331;
    /// Of "colgroup".
    pub const COLGROUP: u64 = 0x0000_005d_0000_0002;
    /// Of "color".
    pub const COLOR: u64 = 0x0000_726f_6c6f_6351;
    /// Of "color-interpolation".
    pub const COLOR_INTERPOLATION: u64 = 0x0000_0074_0000_0002;
    /// Of "color-interpolation-filters".
    pub const COLOR_INTERPOLATION_FILTERS: u64 = 0x0000_01b0_0000_0002;
    /// Of "color-profile".
    pub const COLOR_PROFILE: u64 = 0x0000_0080_0000_0002;
    /// Of "color-rendering".
    pub const COLOR_RENDERING: u64 = 0x0000_014d_0000_0002;
    /// Of "cols".
    pub const COLS: u64 = 0x0000_0073_6c6f_6341;
    /// Of "colspan".
    pub const COLSPAN: u64 = 0x6e61_7073_6c6f_6371;
    /// Of "columnalign".
    pub const COLUMNALIGN: u64 = 0x0000_0134_0000_0002;
    /// Of "columnlines".
    pub const COLUMNLINES: u64 = 0x0000_007d_0000_0002;
    /// Of "columnspacing".
    pub const COLUMNSPACING: u64 = 0x0000_0160_0000_0002;
    /// Of "columnspan".
    pub const COLUMNSPAN: u64 = 0x0000_0029_0000_0002;
    /// Of "columnwidth".
    pub const COLUMNWIDTH: u64 = 0x0000_01aa_0000_0002;
    /// Of "compact".
    pub const COMPACT: u64 = 0x7463_6170_6d6f_6371;
    /// Of "complexes".
    pub const COMPLEXES: u64 = 0x0000_0106_0000_0002;
    /// Of "compose".
    pub const COMPOSE: u64 = 0x6573_6f70_6d6f_6371;
    /// Of "condition".
    pub const CONDITION: u64 = 0x0000_000d_0000_0002;
    /// Of "conjugate".
    pub const CONJUGATE: u64 = 0x0000_00d0_0000_0002;
    /// Of "content".
    pub const CONTENT: u64 = 0x746e_6574_6e6f_6371;
    /// Of "contentScriptType".
    pub const CONTENT_SCRIPT_TYPE: u64 = 0x0000_00e3_0000_0002;
    /// Of "contentStyleType".
    pub const CONTENT_STYLE_TYPE: u64 = 0x0000_0072_0000_0002;
    /// Of "contenteditable".
    pub const CONTENTEDITABLE: u64 = 0x0000_0199_0000_0002;
    /// Of "contextmenu".
    pub const CONTEXTMENU: u64 = 0x0000_0135_0000_0002;
    /// Of "controllerchange".
    pub const CONTROLLERCHANGE: u64 = 0x0000_00a4_0000_0002;
    /// Of "controls".
    pub const CONTROLS: u64 = 0x0000_0187_0000_0002;
    /// Of "coords".
    pub const COORDS: u64 = 0x0073_6472_6f6f_6361;
    /// Of "cos".
    pub const COS: u64 = 0x0000_0000_736f_6331;
    /// Of "cosh".
    pub const COSH: u64 = 0x0000_0068_736f_6341;
    /// Of "cot".
    pub const COT: u64 = 0x0000_0000_746f_6331;
    /// Of "coth".
    pub const COTH: u64 = 0x0000_0068_746f_6341;
    /// Of "crossorigin".
    pub const CROSSORIGIN: u64 = 0x0000_012e_0000_0002;
    /// Of "csc".
    pub const CSC: u64 = 0x0000_0000_6373_6331;
    /// Of "csch".
    pub const CSCH: u64 = 0x0000_0068_6373_6341;
    /// Of "csymbol".
    pub const CSYMBOL: u64 = 0x6c6f_626d_7973_6371;
    /// Of "curl".
    pub const CURL: u64 = 0x0000_006c_7275_6341;
    /// Of "cursor".
    pub const CURSOR: u64 = 0x0072_6f73_7275_6361;
    /// Of "cx".
    pub const CX: u64 = 0x0000_0000_0078_6321;
    /// Of "cy".
    pub const CY: u64 = 0x0000_0000_0079_6321;
    /// Of "d".
    pub const D: u64 = 0x0000_0000_0000_6411;
    /// Of "data".
    pub const DATA: u64 = 0x0000_0061_7461_6441;
    /// Of "datafld".
    pub const DATAFLD: u64 = 0x646c_6661_7461_6471;
    /// Of "dataformatas".
    pub const DATAFORMATAS: u64 = 0x0000_008a_0000_0002;
    /// Of "datalist".
    pub const DATALIST: u64 = 0x0000_01cf_0000_0002;
    /// Of "datasrc".
    pub const DATASRC: u64 = 0x6372_7361_7461_6471;
    /// Of "datatemplate".
    pub const DATATEMPLATE: u64 = 0x0000_01cd_0000_0002;
    /// Of "datetime".
    pub const DATETIME: u64 = 0x0000_01c1_0000_0002;
    /// Of "dd".
    pub const DD: u64 = 0x0000_0000_0064_6421;
    /// Of "declare".
    pub const DECLARE: u64 = 0x6572_616c_6365_6471;
    /// Of "decoding".
    pub const DECODING: u64 = 0x0000_0193_0000_0002;
    /// Of "default".
    pub const DEFAULT: u64 = 0x746c_7561_6665_6471;
    /// Of "defer".
    pub const DEFER: u64 = 0x0000_7265_6665_6451;
    /// Of "definition-src".
    pub const DEFINITION_SRC: u64 = 0x0000_0007_0000_0002;
    /// Of "definitionURL".
    pub const DEFINITION_URL: u64 = 0x0000_0056_0000_0002;
    /// Of "defs".
    pub const DEFS: u64 = 0x0000_0073_6665_6441;
    /// Of "degree".
    pub const DEGREE: u64 = 0x0065_6572_6765_6461;
    /// Of "del".
    pub const DEL: u64 = 0x0000_0000_6c65_6431;
    /// Of "depth".
    pub const DEPTH: u64 = 0x0000_6874_7065_6451;
    /// Of "desc".
    pub const DESC: u64 = 0x0000_0063_7365_6441;
    /// Of "descent".
    pub const DESCENT: u64 = 0x746e_6563_7365_6471;
    /// Of "details".
    pub const DETAILS: u64 = 0x736c_6961_7465_6471;
    /// Of "determinant".
    pub const DETERMINANT: u64 = 0x0000_0123_0000_0002;
    /// Of "dfn".
    pub const DFN: u64 = 0x0000_0000_6e66_6431;
    /// Of "dialog".
    pub const DIALOG: u64 = 0x0067_6f6c_6169_6461;
    /// Of "diff".
    pub const DIFF: u64 = 0x0000_0066_6669_6441;
    /// Of "diffuseConstant".
    pub const DIFFUSE_CONSTANT: u64 = 0x0000_01a1_0000_0002;
    /// Of "dir".
    pub const DIR: u64 = 0x0000_0000_7269_6431;
    /// Of "direction".
    pub const DIRECTION: u64 = 0x0000_0156_0000_0002;
    /// Of "dirname".
    pub const DIRNAME: u64 = 0x656d_616e_7269_6471;
    /// Of "disabled".
    pub const DISABLED: u64 = 0x0000_010a_0000_0002;
    /// Of "discard".
    pub const DISCARD: u64 = 0x6472_6163_7369_6471;
    /// Of "display".
    pub const DISPLAY: u64 = 0x7961_6c70_7369_6471;
    /// Of "displaystyle".
    pub const DISPLAYSTYLE: u64 = 0x0000_018b_0000_0002;
    /// Of "div".
    pub const DIV: u64 = 0x0000_0000_7669_6431;
    /// Of "divergence".
    pub const DIVERGENCE: u64 = 0x0000_0052_0000_0002;
    /// Of "divide".
    pub const DIVIDE: u64 = 0x0065_6469_7669_6461;
    /// Of "divisor".
    pub const DIVISOR: u64 = 0x726f_7369_7669_6471;
    /// Of "dl".
    pub const DL: u64 = 0x0000_0000_006c_6421;
    /// Of "domain".
    pub const DOMAIN: u64 = 0x006e_6961_6d6f_6461;
    /// Of "domainofapplication".
    pub const DOMAINOFAPPLICATION: u64 = 0x0000_00f7_0000_0002;
    /// Of "dominant-baseline".
    pub const DOMINANT_BASELINE: u64 = 0x0000_0091_0000_0002;
    /// Of "download".
    pub const DOWNLOAD: u64 = 0x0000_007f_0000_0002;
    /// Of "draggable".
    pub const DRAGGABLE: u64 = 0x0000_002a_0000_0002;
    /// Of "dt".
    pub const DT: u64 = 0x0000_0000_0074_6421;
    /// Of "dur".
    pub const DUR: u64 = 0x0000_0000_7275_6431;
    /// Of "dx".
    pub const DX: u64 = 0x0000_0000_0078_6421;
    /// Of "dy".
    pub const DY: u64 = 0x0000_0000_0079_6421;
    /// Of "edge".
    pub const EDGE: u64 = 0x0000_0065_6764_6541;
    /// Of "edgeMode".
    pub const EDGE_MODE: u64 = 0x0000_0031_0000_0002;
    /// Of "elevation".
    pub const ELEVATION: u64 = 0x0000_0069_0000_0002;
    /// Of "ellipse".
    pub const ELLIPSE: u64 = 0x6573_7069_6c6c_6571;
    /// Of "em".
    pub const EM: u64 = 0x0000_0000_006d_6521;
    /// Of "embed".
    pub const EMBED: u64 = 0x0000_6465_626d_6551;
    /// Of "emptyset".
    pub const EMPTYSET: u64 = 0x0000_01ce_0000_0002;
    /// Of "enable-background".
    pub const ENABLE_BACKGROUND: u64 = 0x0000_007e_0000_0002;
    /// Of "encoding".
    pub const ENCODING: u64 = 0x0000_0093_0000_0002;
    /// Of "enctype".
    pub const ENCTYPE: u64 = 0x6570_7974_636e_6571;
    /// Of "end".
    pub const END: u64 = 0x0000_0000_646e_6531;
    /// Of "eq".
    pub const EQ: u64 = 0x0000_0000_0071_6521;
    /// Of "equalcolumns".
    pub const EQUALCOLUMNS: u64 = 0x0000_01a5_0000_0002;
    /// Of "equalrows".
    pub const EQUALROWS: u64 = 0x0000_00d9_0000_0002;
    /// Of "equivalent".
    pub const EQUIVALENT: u64 = 0x0000_0111_0000_0002;
    /// Of "eulergamma".
    pub const EULERGAMMA: u64 = 0x0000_007a_0000_0002;
    /// Of "event".
    pub const EVENT: u64 = 0x0000_746e_6576_6551;
    /// Of "exists".
    pub const EXISTS: u64 = 0x0073_7473_6978_6561;
    /// Of "exp".
    pub const EXP: u64 = 0x0000_0000_7078_6531;
    /// Of "exponent".
    pub const EXPONENT: u64 = 0x0000_01c6_0000_0002;
    /// Of "exponentiale".
    pub const EXPONENTIALE: u64 = 0x0000_009e_0000_0002;
    /// Of "externalResourcesRequired".
    pub const EXTERNAL_RESOURCES_REQUIRED: u64 = 0x0000_008c_0000_0002;
    /// Of "face".
    pub const FACE: u64 = 0x0000_0065_6361_6641;
    /// Of "factorial".
    pub const FACTORIAL: u64 = 0x0000_0041_0000_0002;
    /// Of "factorof".
    pub const FACTOROF: u64 = 0x0000_005c_0000_0002;
    /// Of "false".
    pub const FALSE: u64 = 0x0000_6573_6c61_6651;
    /// Of "feBlend".
    pub const FE_BLEND: u64 = 0x646e_656c_4265_6671;
    /// Of "feColorMatrix".
    pub const FE_COLOR_MATRIX: u64 = 0x0000_0109_0000_0002;
    /// Of "feComponentTransfer".
    pub const FE_COMPONENT_TRANSFER: u64 = 0x0000_001a_0000_0002;
    /// Of "feComposite".
    pub const FE_COMPOSITE: u64 = 0x0000_014b_0000_0002;
    /// Of "feConvolveMatrix".
    pub const FE_CONVOLVE_MATRIX: u64 = 0x0000_0098_0000_0002;
    /// Of "feDiffuseLighting".
    pub const FE_DIFFUSE_LIGHTING: u64 = 0x0000_00c8_0000_0002;
    /// Of "feDisplacementMap".
    pub const FE_DISPLACEMENT_MAP: u64 = 0x0000_00ab_0000_0002;
    /// Of "feDistantLight".
    pub const FE_DISTANT_LIGHT: u64 = 0x0000_012a_0000_0002;
    /// Of "feDropShadow".
    pub const FE_DROP_SHADOW: u64 = 0x0000_01d4_0000_0002;
    /// Of "feFlood".
    pub const FE_FLOOD: u64 = 0x646f_6f6c_4665_6671;
    /// Of "feFuncA".
    pub const FE_FUNC_A: u64 = 0x4163_6e75_4665_6671;
    /// Of "feFuncB".
    pub const FE_FUNC_B: u64 = 0x4263_6e75_4665_6671;
    /// Of "feFuncG".
    pub const FE_FUNC_G: u64 = 0x4763_6e75_4665_6671;
    /// Of "feFuncR".
    pub const FE_FUNC_R: u64 = 0x5263_6e75_4665_6671;
    /// Of "feGaussianBlur".
    pub const FE_GAUSSIAN_BLUR: u64 = 0x0000_0122_0000_0002;
    /// Of "feImage".
    pub const FE_IMAGE: u64 = 0x6567_616d_4965_6671;
    /// Of "feMerge".
    pub const FE_MERGE: u64 = 0x6567_7265_4d65_6671;
    /// Of "feMergeNode".
    pub const FE_MERGE_NODE: u64 = 0x0000_0167_0000_0002;
    /// Of "feMorphology".
    pub const FE_MORPHOLOGY: u64 = 0x0000_00ec_0000_0002;
    /// Of "feOffset".
    pub const FE_OFFSET: u64 = 0x0000_0057_0000_0002;
    /// Of "fePointLight".
    pub const FE_POINT_LIGHT: u64 = 0x0000_0058_0000_0002;
    /// Of "feSpecularLighting".
    pub const FE_SPECULAR_LIGHTING: u64 = 0x0000_008b_0000_0002;
    /// Of "feSpotLight".
    pub const FE_SPOT_LIGHT: u64 = 0x0000_000c_0000_0002;
    /// Of "feTile".
    pub const FE_TILE: u64 = 0x0065_6c69_5465_6661;
    /// Of "feTurbulence".
    pub const FE_TURBULENCE: u64 = 0x0000_0066_0000_0002;
    /// Of "fence".
    pub const FENCE: u64 = 0x0000_6563_6e65_6651;
    /// Of "fetch".
    pub const FETCH: u64 = 0x0000_6863_7465_6651;
    /// Of "fieldset".
    pub const FIELDSET: u64 = 0x0000_0081_0000_0002;
    /// Of "figcaption".
    pub const FIGCAPTION: u64 = 0x0000_00b5_0000_0002;
    /// Of "figure".
    pub const FIGURE: u64 = 0x0065_7275_6769_6661;
    /// Of "fill".
    pub const FILL: u64 = 0x0000_006c_6c69_6641;
    /// Of "fill-opacity".
    pub const FILL_OPACITY: u64 = 0x0000_0183_0000_0002;
    /// Of "fill-rule".
    pub const FILL_RULE: u64 = 0x0000_00d3_0000_0002;
    /// Of "filter".
    pub const FILTER: u64 = 0x0072_6574_6c69_6661;
    /// Of "filterRes".
    pub const FILTER_RES: u64 = 0x0000_0053_0000_0002;
    /// Of "filterUnits".
    pub const FILTER_UNITS: u64 = 0x0000_0105_0000_0002;
    /// Of "flood-color".
    pub const FLOOD_COLOR: u64 = 0x0000_000e_0000_0002;
    /// Of "flood-opacity".
    pub const FLOOD_OPACITY: u64 = 0x0000_01b9_0000_0002;
    /// Of "floor".
    pub const FLOOR: u64 = 0x0000_726f_6f6c_6651;
    /// Of "fn".
    pub const FN: u64 = 0x0000_0000_006e_6621;
    /// Of "font".
    pub const FONT: u64 = 0x0000_0074_6e6f_6641;
    /// Of "font-face".
    pub const FONT_FACE: u64 = 0x0000_01c8_0000_0002;
    /// Of "font-face-format".
    pub const FONT_FACE_FORMAT: u64 = 0x0000_0014_0000_0002;
    /// Of "font-face-name".
    pub const FONT_FACE_NAME: u64 = 0x0000_0184_0000_0002;
    /// Of "font-face-src".
    pub const FONT_FACE_SRC: u64 = 0x0000_01e7_0000_0002;
    /// Of "font-face-uri".
    pub const FONT_FACE_URI: u64 = 0x0000_0198_0000_0002;
    /// Of "font-family".
    pub const FONT_FAMILY: u64 = 0x0000_0165_0000_0002;
    /// Of "font-size".
    pub const FONT_SIZE: u64 = 0x0000_0163_0000_0002;
    /// Of "font-size-adjust".
    pub const FONT_SIZE_ADJUST: u64 = 0x0000_001b_0000_0002;
    /// Of "font-stretch".
    pub const FONT_STRETCH: u64 = 0x0000_01df_0000_0002;
    /// Of "font-style".
    pub const FONT_STYLE: u64 = 0x0000_00ba_0000_0002;
    /// Of "font-variant".
    pub const FONT_VARIANT: u64 = 0x0000_0172_0000_0002;
    /// Of "font-weight".
    pub const FONT_WEIGHT: u64 = 0x0000_006d_0000_0002;
    /// Of "fontfamily".
    pub const FONTFAMILY: u64 = 0x0000_0033_0000_0002;
    /// Of "fontsize".
    pub const FONTSIZE: u64 = 0x0000_016f_0000_0002;
    /// Of "fontstyle".
    pub const FONTSTYLE: u64 = 0x0000_0004_0000_0002;
    /// Of "fontweight".
    pub const FONTWEIGHT: u64 = 0x0000_01d0_0000_0002;
    /// Of "footer".
    pub const FOOTER: u64 = 0x0072_6574_6f6f_6661;
    /// Of "for".
    pub const FOR: u64 = 0x0000_0000_726f_6631;
    /// Of "forall".
    pub const FORALL: u64 = 0x006c_6c61_726f_6661;
    /// Of "foreignObject".
    pub const FOREIGN_OBJECT: u64 = 0x0000_000a_0000_0002;
    /// Of "form".
    pub const FORM: u64 = 0x0000_006d_726f_6641;
    /// Of "formaction".
    pub const FORMACTION: u64 = 0x0000_00f3_0000_0002;
    /// Of "format".
    pub const FORMAT: u64 = 0x0074_616d_726f_6661;
    /// Of "formenctype".
    pub const FORMENCTYPE: u64 = 0x0000_00ad_0000_0002;
    /// Of "formmethod".
    pub const FORMMETHOD: u64 = 0x0000_0035_0000_0002;
    /// Of "formnovalidate".
    pub const FORMNOVALIDATE: u64 = 0x0000_01a6_0000_0002;
    /// Of "formtarget".
    pub const FORMTARGET: u64 = 0x0000_01a0_0000_0002;
    /// Of "frame".
    pub const FRAME: u64 = 0x0000_656d_6172_6651;
    /// Of "frameborder".
    pub const FRAMEBORDER: u64 = 0x0000_005e_0000_0002;
    /// Of "frameset".
    pub const FRAMESET: u64 = 0x0000_00dd_0000_0002;
    /// Of "framespacing".
    pub const FRAMESPACING: u64 = 0x0000_01dd_0000_0002;
    /// Of "from".
    pub const FROM: u64 = 0x0000_006d_6f72_6641;
    /// Of "fx".
    pub const FX: u64 = 0x0000_0000_0078_6621;
    /// Of "fy".
    pub const FY: u64 = 0x0000_0000_0079_6621;
    /// Of "g".
    pub const G: u64 = 0x0000_0000_0000_6711;
    /// Of "g1".
    pub const G1: u64 = 0x0000_0000_0031_6721;
    /// Of "g2".
    pub const G2: u64 = 0x0000_0000_0032_6721;
    /// Of "gcd".
    pub const GCD: u64 = 0x0000_0000_6463_6731;
    /// Of "geq".
    pub const GEQ: u64 = 0x0000_0000_7165_6731;
    /// Of "glyph".
    pub const GLYPH: u64 = 0x0000_6870_796c_6751;
    /// Of "glyph-name".
    pub const GLYPH_NAME: u64 = 0x0000_0149_0000_0002;
    /// Of "glyph-orientation-horizontal".
    pub const GLYPH_ORIENTATION_HORIZONTAL: u64 = 0x0000_0063_0000_0002;
    /// Of "glyph-orientation-vertical".
    pub const GLYPH_ORIENTATION_VERTICAL: u64 = 0x0000_0161_0000_0002;
    /// Of "glyphRef".
    pub const GLYPH_REF: u64 = 0x0000_0068_0000_0002;
    /// Of "grad".
    pub const GRAD: u64 = 0x0000_0064_6172_6741;
    /// Of "gradientTransform".
    pub const GRADIENT_TRANSFORM: u64 = 0x0000_01b8_0000_0002;
    /// Of "gradientUnits".
    pub const GRADIENT_UNITS: u64 = 0x0000_0050_0000_0002;
    /// Of "groupalign".
    pub const GROUPALIGN: u64 = 0x0000_0116_0000_0002;
    /// Of "gt".
    pub const GT: u64 = 0x0000_0000_0074_6721;
    /// Of "h1".
    pub const H1: u64 = 0x0000_0000_0031_6821;
    /// Of "h2".
    pub const H2: u64 = 0x0000_0000_0032_6821;
    /// Of "h3".
    pub const H3: u64 = 0x0000_0000_0033_6821;
    /// Of "h4".
    pub const H4: u64 = 0x0000_0000_0034_6821;
    /// Of "h5".
    pub const H5: u64 = 0x0000_0000_0035_6821;
    /// Of "h6".
    pub const H6: u64 = 0x0000_0000_0036_6821;
    /// Of "handler".
    pub const HANDLER: u64 = 0x7265_6c64_6e61_6871;
    /// Of "hanging".
    pub const HANGING: u64 = 0x676e_6967_6e61_6871;
    /// Of "head".
    pub const HEAD: u64 = 0x0000_0064_6165_6841;
    /// Of "header".
    pub const HEADER: u64 = 0x0072_6564_6165_6861;
    /// Of "headers".
    pub const HEADERS: u64 = 0x7372_6564_6165_6871;
    /// Of "height".
    pub const HEIGHT: u64 = 0x0074_6867_6965_6861;
    /// Of "hgroup".
    pub const HGROUP: u64 = 0x0070_756f_7267_6861;
    /// Of "hidden".
    pub const HIDDEN: u64 = 0x006e_6564_6469_6861;
    /// Of "hidefocus".
    pub const HIDEFOCUS: u64 = 0x0000_0021_0000_0002;
    /// Of "high".
    pub const HIGH: u64 = 0x0000_0068_6769_6841;
    /// Of "hkern".
    pub const HKERN: u64 = 0x0000_6e72_656b_6851;
    /// Of "horiz-adv-x".
    pub const HORIZ_ADV_X: u64 = 0x0000_00cf_0000_0002;
    /// Of "horiz-origin-x".
    pub const HORIZ_ORIGIN_X: u64 = 0x0000_0145_0000_0002;
    /// Of "horiz-origin-y".
    pub const HORIZ_ORIGIN_Y: u64 = 0x0000_013d_0000_0002;
    /// Of "hr".
    pub const HR: u64 = 0x0000_0000_0072_6821;
    /// Of "href".
    pub const HREF: u64 = 0x0000_0066_6572_6841;
    /// Of "hreflang".
    pub const HREFLANG: u64 = 0x0000_0100_0000_0002;
    /// Of "hspace".
    pub const HSPACE: u64 = 0x0065_6361_7073_6861;
    /// Of "html".
    pub const HTML: u64 = 0x0000_006c_6d74_6841;
    /// Of "http-equiv".
    pub const HTTP_EQUIV: u64 = 0x0000_01e3_0000_0002;
    /// Of "i".
    pub const I: u64 = 0x0000_0000_0000_6911;
    /// Of "icon".
    pub const ICON: u64 = 0x0000_006e_6f63_6941;
    /// Of "id".
    pub const ID: u64 = 0x0000_0000_0064_6921;
    /// Of "ident".
    pub const IDENT: u64 = 0x0000_746e_6564_6951;
    /// Of "ideographic".
    pub const IDEOGRAPHIC: u64 = 0x0000_0096_0000_0002;
    /// Of "iframe".
    pub const IFRAME: u64 = 0x0065_6d61_7266_6961;
    /// Of "image".
    pub const IMAGE: u64 = 0x0000_6567_616d_6951;
    /// Of "image-rendering".
    pub const IMAGE_RENDERING: u64 = 0x0000_01e8_0000_0002;
    /// Of "imaginary".
    pub const IMAGINARY: u64 = 0x0000_011f_0000_0002;
    /// Of "imaginaryi".
    pub const IMAGINARYI: u64 = 0x0000_0064_0000_0002;
    /// Of "img".
    pub const IMG: u64 = 0x0000_0000_676d_6931;
    /// Of "implies".
    pub const IMPLIES: u64 = 0x7365_696c_706d_6971;
    /// Of "in".
    pub const IN: u64 = 0x0000_0000_006e_6921;
    /// Of "in2".
    pub const IN2: u64 = 0x0000_0000_326e_6931;
    /// Of "index".
    pub const INDEX: u64 = 0x0000_7865_646e_6951;
    /// Of "infinity".
    pub const INFINITY: u64 = 0x0000_0169_0000_0002;
    /// Of "input".
    pub const INPUT: u64 = 0x0000_7475_706e_6951;
    /// Of "inputmode".
    pub const INPUTMODE: u64 = 0x0000_012c_0000_0002;
    /// Of "ins".
    pub const INS: u64 = 0x0000_0000_736e_6931;
    /// Of "int".
    pub const INT: u64 = 0x0000_0000_746e_6931;
    /// Of "integers".
    pub const INTEGERS: u64 = 0x0000_0016_0000_0002;
    /// Of "integrity".
    pub const INTEGRITY: u64 = 0x0000_0130_0000_0002;
    /// Of "intercept".
    pub const INTERCEPT: u64 = 0x0000_009b_0000_0002;
    /// Of "intersect".
    pub const INTERSECT: u64 = 0x0000_0112_0000_0002;
    /// Of "interval".
    pub const INTERVAL: u64 = 0x0000_0164_0000_0002;
    /// Of "inverse".
    pub const INVERSE: u64 = 0x6573_7265_766e_6971;
    /// Of "irrelevant".
    pub const IRRELEVANT: u64 = 0x0000_01e1_0000_0002;
    /// Of "isindex".
    pub const ISINDEX: u64 = 0x7865_646e_6973_6971;
    /// Of "ismap".
    pub const ISMAP: u64 = 0x0000_7061_6d73_6951;
    /// Of "itemid".
    pub const ITEMID: u64 = 0x0064_696d_6574_6961;
    /// Of "itemprop".
    pub const ITEMPROP: u64 = 0x0000_00b2_0000_0002;
    /// Of "itemref".
    pub const ITEMREF: u64 = 0x6665_726d_6574_6971;
    /// Of "itemscope".
    pub const ITEMSCOPE: u64 = 0x0000_00b7_0000_0002;
    /// Of "itemtype".
    pub const ITEMTYPE: u64 = 0x0000_0087_0000_0002;
    /// Of "k".
    pub const K: u64 = 0x0000_0000_0000_6b11;
    /// Of "k1".
    pub const K1: u64 = 0x0000_0000_0031_6b21;
    /// Of "k2".
    pub const K2: u64 = 0x0000_0000_0032_6b21;
    /// Of "k3".
    pub const K3: u64 = 0x0000_0000_0033_6b21;
    /// Of "k4".
    pub const K4: u64 = 0x0000_0000_0034_6b21;
    /// Of "kbd".
    pub const KBD: u64 = 0x0000_0000_6462_6b31;
    /// Of "kernelMatrix".
    pub const KERNEL_MATRIX: u64 = 0x0000_0061_0000_0002;
    /// Of "kernelUnitLength".
    pub const KERNEL_UNIT_LENGTH: u64 = 0x0000_00ac_0000_0002;
    /// Of "kerning".
    pub const KERNING: u64 = 0x676e_696e_7265_6b71;
    /// Of "keyPoints".
    pub const KEY_POINTS: u64 = 0x0000_0180_0000_0002;
    /// Of "keySplines".
    pub const KEY_SPLINES: u64 = 0x0000_016a_0000_0002;
    /// Of "keyTimes".
    pub const KEY_TIMES: u64 = 0x0000_00bf_0000_0002;
    /// Of "keygen".
    pub const KEYGEN: u64 = 0x006e_6567_7965_6b61;
    /// Of "kind".
    pub const KIND: u64 = 0x0000_0064_6e69_6b41;
    /// Of "label".
    pub const LABEL: u64 = 0x0000_6c65_6261_6c51;
    /// Of "lambda".
    pub const LAMBDA: u64 = 0x0061_6462_6d61_6c61;
    /// Of "lang".
    pub const LANG: u64 = 0x0000_0067_6e61_6c41;
    /// Of "language".
    pub const LANGUAGE: u64 = 0x0000_00ef_0000_0002;
    /// Of "laplacian".
    pub const LAPLACIAN: u64 = 0x0000_0141_0000_0002;
    /// Of "largeop".
    pub const LARGEOP: u64 = 0x706f_6567_7261_6c71;
    /// Of "lcm".
    pub const LCM: u64 = 0x0000_0000_6d63_6c31;
    /// Of "legend".
    pub const LEGEND: u64 = 0x0064_6e65_6765_6c61;
    /// Of "lengthAdjust".
    pub const LENGTH_ADJUST: u64 = 0x0000_0060_0000_0002;
    /// Of "leq".
    pub const LEQ: u64 = 0x0000_0000_7165_6c31;
    /// Of "letter-spacing".
    pub const LETTER_SPACING: u64 = 0x0000_00a1_0000_0002;
    /// Of "li".
    pub const LI: u64 = 0x0000_0000_0069_6c21;
    /// Of "lighting-color".
    pub const LIGHTING_COLOR: u64 = 0x0000_013e_0000_0002;
    /// Of "limit".
    pub const LIMIT: u64 = 0x0000_7469_6d69_6c51;
    /// Of "limitingConeAngle".
    pub const LIMITING_CONE_ANGLE: u64 = 0x0000_00ff_0000_0002;
    /// Of "line".
    pub const LINE: u64 = 0x0000_0065_6e69_6c41;
    /// Of "line-height".
    pub const LINE_HEIGHT: u64 = 0x0000_00a6_0000_0002;
    /// Of "linearGradient".
    pub const LINEAR_GRADIENT: u64 = 0x0000_01b2_0000_0002;
    /// Of "linebreak".
    pub const LINEBREAK: u64 = 0x0000_00c0_0000_0002;
    /// Of "linethickness".
    pub const LINETHICKNESS: u64 = 0x0000_001c_0000_0002;
    /// Of "link".
    pub const LINK: u64 = 0x0000_006b_6e69_6c41;
    /// Of "list".
    pub const LIST: u64 = 0x0000_0074_7369_6c41;
    /// Of "listener".
    pub const LISTENER: u64 = 0x0000_00f4_0000_0002;
    /// Of "listing".
    pub const LISTING: u64 = 0x676e_6974_7369_6c71;
    /// Of "ln".
    pub const LN: u64 = 0x0000_0000_006e_6c21;
    /// Of "local".
    pub const LOCAL: u64 = 0x0000_6c61_636f_6c51;
    /// Of "log".
    pub const LOG: u64 = 0x0000_0000_676f_6c31;
    /// Of "logbase".
    pub const LOGBASE: u64 = 0x6573_6162_676f_6c71;
    /// Of "longdesc".
    pub const LONGDESC: u64 = 0x0000_01e9_0000_0002;
    /// Of "loop".
    pub const LOOP: u64 = 0x0000_0070_6f6f_6c41;
    /// Of "low".
    pub const LOW: u64 = 0x0000_0000_776f_6c31;
    /// Of "lowlimit".
    pub const LOWLIMIT: u64 = 0x0000_0028_0000_0002;
    /// Of "lowsrc".
    pub const LOWSRC: u64 = 0x0063_7273_776f_6c61;
    /// Of "lquote".
    pub const LQUOTE: u64 = 0x0065_746f_7571_6c61;
    /// Of "lspace".
    pub const LSPACE: u64 = 0x0065_6361_7073_6c61;
    /// Of "lt".
    pub const LT: u64 = 0x0000_0000_0074_6c21;
    /// Of "macros".
    pub const MACROS: u64 = 0x0073_6f72_6361_6d61;
    /// Of "maction".
    pub const MACTION: u64 = 0x6e6f_6974_6361_6d71;
    /// Of "main".
    pub const MAIN: u64 = 0x0000_006e_6961_6d41;
    /// Of "maligngroup".
    pub const MALIGNGROUP: u64 = 0x0000_0094_0000_0002;
    /// Of "malignmark".
    pub const MALIGNMARK: u64 = 0x0000_00cd_0000_0002;
    /// Of "manifest".
    pub const MANIFEST: u64 = 0x0000_012d_0000_0002;
    /// Of "map".
    pub const MAP: u64 = 0x0000_0000_7061_6d31;
    /// Of "marginheight".
    pub const MARGINHEIGHT: u64 = 0x0000_0018_0000_0002;
    /// Of "marginwidth".
    pub const MARGINWIDTH: u64 = 0x0000_0150_0000_0002;
    /// Of "mark".
    pub const MARK: u64 = 0x0000_006b_7261_6d41;
    /// Of "marker".
    pub const MARKER: u64 = 0x0072_656b_7261_6d61;
    /// Of "marker-end".
    pub const MARKER_END: u64 = 0x0000_0038_0000_0002;
    /// Of "marker-mid".
    pub const MARKER_MID: u64 = 0x0000_01d5_0000_0002;
    /// Of "marker-start".
    pub const MARKER_START: u64 = 0x0000_015a_0000_0002;
    /// Of "markerHeight".
    pub const MARKER_HEIGHT: u64 = 0x0000_00e7_0000_0002;
    /// Of "markerUnits".
    pub const MARKER_UNITS: u64 = 0x0000_00e6_0000_0002;
    /// Of "markerWidth".
    pub const MARKER_WIDTH: u64 = 0x0000_011d_0000_0002;
    /// Of "marquee".
    pub const MARQUEE: u64 = 0x6565_7571_7261_6d71;
    /// Of "mask".
    pub const MASK: u64 = 0x0000_006b_7361_6d41;
    /// Of "maskContentUnits".
    pub const MASK_CONTENT_UNITS: u64 = 0x0000_003e_0000_0002;
    /// Of "maskUnits".
    pub const MASK_UNITS: u64 = 0x0000_00bb_0000_0002;
    /// Of "math".
    pub const MATH: u64 = 0x0000_0068_7461_6d41;
    /// Of "mathbackground".
    pub const MATHBACKGROUND: u64 = 0x0000_016b_0000_0002;
    /// Of "mathcolor".
    pub const MATHCOLOR: u64 = 0x0000_003a_0000_0002;
    /// Of "mathematical".
    pub const MATHEMATICAL: u64 = 0x0000_004c_0000_0002;
    /// Of "mathsize".
    pub const MATHSIZE: u64 = 0x0000_019a_0000_0002;
    /// Of "mathvariant".
    pub const MATHVARIANT: u64 = 0x0000_007c_0000_0002;
    /// Of "matrix".
    pub const MATRIX: u64 = 0x0078_6972_7461_6d61;
    /// Of "matrixrow".
    pub const MATRIXROW: u64 = 0x0000_004e_0000_0002;
    /// Of "max".
    pub const MAX: u64 = 0x0000_0000_7861_6d31;
    /// Of "maxlength".
    pub const MAXLENGTH: u64 = 0x0000_01de_0000_0002;
    /// Of "maxsize".
    pub const MAXSIZE: u64 = 0x657a_6973_7861_6d71;
    /// Of "mean".
    pub const MEAN: u64 = 0x0000_006e_6165_6d41;
    /// Of "media".
    pub const MEDIA: u64 = 0x0000_6169_6465_6d51;
    /// Of "median".
    pub const MEDIAN: u64 = 0x006e_6169_6465_6d61;
    /// Of "mediummathspace".
    pub const MEDIUMMATHSPACE: u64 = 0x0000_0148_0000_0002;
    /// Of "menclose".
    pub const MENCLOSE: u64 = 0x0000_00dc_0000_0002;
    /// Of "menu".
    pub const MENU: u64 = 0x0000_0075_6e65_6d41;
    /// Of "menuitem".
    pub const MENUITEM: u64 = 0x0000_0103_0000_0002;
    /// Of "merror".
    pub const MERROR: u64 = 0x0072_6f72_7265_6d61;
    /// Of "meta".
    pub const META: u64 = 0x0000_0061_7465_6d41;
    /// Of "metadata".
    pub const METADATA: u64 = 0x0000_01ca_0000_0002;
    /// Of "meter".
    pub const METER: u64 = 0x0000_7265_7465_6d51;
    /// Of "method".
    pub const METHOD: u64 = 0x0064_6f68_7465_6d61;
    /// Of "mfenced".
    pub const MFENCED: u64 = 0x6465_636e_6566_6d71;
    /// Of "mfrac".
    pub const MFRAC: u64 = 0x0000_6361_7266_6d51;
    /// Of "mglyph".
    pub const MGLYPH: u64 = 0x0068_7079_6c67_6d61;
    /// Of "mi".
    pub const MI: u64 = 0x0000_0000_0069_6d21;
    /// Of "min".
    pub const MIN: u64 = 0x0000_0000_6e69_6d31;
    /// Of "minlength".
    pub const MINLENGTH: u64 = 0x0000_0146_0000_0002;
    /// Of "minsize".
    pub const MINSIZE: u64 = 0x657a_6973_6e69_6d71;
    /// Of "minus".
    pub const MINUS: u64 = 0x0000_7375_6e69_6d51;
    /// Of "missing-glyph".
    pub const MISSING_GLYPH: u64 = 0x0000_008e_0000_0002;
    /// Of "mlabeledtr".
    pub const MLABELEDTR: u64 = 0x0000_01ba_0000_0002;
    /// Of "mmultiscripts".
    pub const MMULTISCRIPTS: u64 = 0x0000_018f_0000_0002;
    /// Of "mn".
    pub const MN: u64 = 0x0000_0000_006e_6d21;
    /// Of "mo".
    pub const MO: u64 = 0x0000_0000_006f_6d21;
    /// Of "mode".
    pub const MODE: u64 = 0x0000_0065_646f_6d41;
    /// Of "moment".
    pub const MOMENT: u64 = 0x0074_6e65_6d6f_6d61;
    /// Of "momentabout".
    pub const MOMENTABOUT: u64 = 0x0000_00f0_0000_0002;
    /// Of "movablelimits".
    pub const MOVABLELIMITS: u64 = 0x0000_00ca_0000_0002;
    /// Of "mover".
    pub const MOVER: u64 = 0x0000_7265_766f_6d51;
    /// Of "mozbrowser".
    pub const MOZBROWSER: u64 = 0x0000_002d_0000_0002;
    /// Of "mpadded".
    pub const MPADDED: u64 = 0x6465_6464_6170_6d71;
    /// Of "mpath".
    pub const MPATH: u64 = 0x0000_6874_6170_6d51;
    /// Of "mphantom".
    pub const MPHANTOM: u64 = 0x0000_01db_0000_0002;
    /// Of "mprescripts".
    pub const MPRESCRIPTS: u64 = 0x0000_015e_0000_0002;
    /// Of "mroot".
    pub const MROOT: u64 = 0x0000_746f_6f72_6d51;
    /// Of "mrow".
    pub const MROW: u64 = 0x0000_0077_6f72_6d41;
    /// Of "ms".
    pub const MS: u64 = 0x0000_0000_0073_6d21;
    /// Of "mspace".
    pub const MSPACE: u64 = 0x0065_6361_7073_6d61;
    /// Of "msqrt".
    pub const MSQRT: u64 = 0x0000_7472_7173_6d51;
    /// Of "mstyle".
    pub const MSTYLE: u64 = 0x0065_6c79_7473_6d61;
    /// Of "msub".
    pub const MSUB: u64 = 0x0000_0062_7573_6d41;
    /// Of "msubsup".
    pub const MSUBSUP: u64 = 0x7075_7362_7573_6d71;
    /// Of "msup".
    pub const MSUP: u64 = 0x0000_0070_7573_6d41;
    /// Of "mtable".
    pub const MTABLE: u64 = 0x0065_6c62_6174_6d61;
    /// Of "mtd".
    pub const MTD: u64 = 0x0000_0000_6474_6d31;
    /// Of "mtext".
    pub const MTEXT: u64 = 0x0000_7478_6574_6d51;
    /// Of "mtr".
    pub const MTR: u64 = 0x0000_0000_7274_6d31;
    /// Of "multicol".
    pub const MULTICOL: u64 = 0x0000_00b8_0000_0002;
    /// Of "multiple".
    pub const MULTIPLE: u64 = 0x0000_01b1_0000_0002;
    /// Of "munder".
    pub const MUNDER: u64 = 0x0072_6564_6e75_6d61;
    /// Of "munderover".
    pub const MUNDEROVER: u64 = 0x0000_0181_0000_0002;
    /// Of "muted".
    pub const MUTED: u64 = 0x0000_6465_7475_6d51;
    /// Of "name".
    pub const NAME: u64 = 0x0000_0065_6d61_6e41;
    /// Of "nargs".
    pub const NARGS: u64 = 0x0000_7367_7261_6e51;
    /// Of "naturalnumbers".
    pub const NATURALNUMBERS: u64 = 0x0000_0030_0000_0002;
    /// Of "nav".
    pub const NAV: u64 = 0x0000_0000_7661_6e31;
    /// Of "neq".
    pub const NEQ: u64 = 0x0000_0000_7165_6e31;
    /// Of "nest".
    pub const NEST: u64 = 0x0000_0074_7365_6e41;
    /// Of "nextid".
    pub const NEXTID: u64 = 0x0064_6974_7865_6e61;
    /// Of "nobr".
    pub const NOBR: u64 = 0x0000_0072_626f_6e41;
    /// Of "noembed".
    pub const NOEMBED: u64 = 0x6465_626d_656f_6e71;
    /// Of "noframes".
    pub const NOFRAMES: u64 = 0x0000_018c_0000_0002;
    /// Of "nohref".
    pub const NOHREF: u64 = 0x0066_6572_686f_6e61;
    /// Of "nomodule".
    pub const NOMODULE: u64 = 0x0000_01a8_0000_0002;
    /// Of "nonce".
    pub const NONCE: u64 = 0x0000_6563_6e6f_6e51;
    /// Of "none".
    pub const NONE: u64 = 0x0000_0065_6e6f_6e41;
    /// Of "noresize".
    pub const NORESIZE: u64 = 0x0000_01b5_0000_0002;
    /// Of "noscript".
    pub const NOSCRIPT: u64 = 0x0000_01d6_0000_0002;
    /// Of "noshade".
    pub const NOSHADE: u64 = 0x6564_6168_736f_6e71;
    /// Of "not".
    pub const NOT: u64 = 0x0000_0000_746f_6e31;
    /// Of "notanumber".
    pub const NOTANUMBER: u64 = 0x0000_0188_0000_0002;
    /// Of "notation".
    pub const NOTATION: u64 = 0x0000_0127_0000_0002;
    /// Of "notin".
    pub const NOTIN: u64 = 0x0000_6e69_746f_6e51;
    /// Of "notprsubset".
    pub const NOTPRSUBSET: u64 = 0x0000_0170_0000_0002;
    /// Of "notsubset".
    pub const NOTSUBSET: u64 = 0x0000_00d2_0000_0002;
    /// Of "novalidate".
    pub const NOVALIDATE: u64 = 0x0000_019c_0000_0002;
    /// Of "nowrap".
    pub const NOWRAP: u64 = 0x0070_6172_776f_6e61;
    /// Of "numOctaves".
    pub const NUM_OCTAVES: u64 = 0x0000_00a5_0000_0002;
    /// Of "object".
    pub const OBJECT: u64 = 0x0074_6365_6a62_6f61;
    /// Of "occurrence".
    pub const OCCURRENCE: u64 = 0x0000_0051_0000_0002;
    /// Of "offset".
    pub const OFFSET: u64 = 0x0074_6573_6666_6f61;
    /// Of "ol".
    pub const OL: u64 = 0x0000_0000_006c_6f21;
    /// Of "onabort".
    pub const ONABORT: u64 = 0x7472_6f62_616e_6f71;
    /// Of "onactivate".
    pub const ONACTIVATE: u64 = 0x0000_0140_0000_0002;
    /// Of "onafterprint".
    pub const ONAFTERPRINT: u64 = 0x0000_019b_0000_0002;
    /// Of "onafterupdate".
    pub const ONAFTERUPDATE: u64 = 0x0000_0185_0000_0002;
    /// Of "onbefordeactivate".
    pub const ONBEFORDEACTIVATE: u64 = 0x0000_0088_0000_0002;
    /// Of "onbeforeactivate".
    pub const ONBEFOREACTIVATE: u64 = 0x0000_006b_0000_0002;
    /// Of "onbeforecopy".
    pub const ONBEFORECOPY: u64 = 0x0000_00fd_0000_0002;
    /// Of "onbeforecut".
    pub const ONBEFORECUT: u64 = 0x0000_0178_0000_0002;
    /// Of "onbeforeeditfocus".
    pub const ONBEFOREEDITFOCUS: u64 = 0x0000_00cb_0000_0002;
    /// Of "onbeforepaste".
    pub const ONBEFOREPASTE: u64 = 0x0000_00e5_0000_0002;
    /// Of "onbeforeprint".
    pub const ONBEFOREPRINT: u64 = 0x0000_0108_0000_0002;
    /// Of "onbeforeunload".
    pub const ONBEFOREUNLOAD: u64 = 0x0000_0107_0000_0002;
    /// Of "onbeforeupdate".
    pub const ONBEFOREUPDATE: u64 = 0x0000_0011_0000_0002;
    /// Of "onbegin".
    pub const ONBEGIN: u64 = 0x6e69_6765_626e_6f71;
    /// Of "onblur".
    pub const ONBLUR: u64 = 0x0072_756c_626e_6f61;
    /// Of "onbounce".
    pub const ONBOUNCE: u64 = 0x0000_0174_0000_0002;
    /// Of "oncellchange".
    pub const ONCELLCHANGE: u64 = 0x0000_009c_0000_0002;
    /// Of "onchange".
    pub const ONCHANGE: u64 = 0x0000_000b_0000_0002;
    /// Of "onclick".
    pub const ONCLICK: u64 = 0x6b63_696c_636e_6f71;
    /// Of "oncontextmenu".
    pub const ONCONTEXTMENU: u64 = 0x0000_00a2_0000_0002;
    /// Of "oncontrolselect".
    pub const ONCONTROLSELECT: u64 = 0x0000_008f_0000_0002;
    /// Of "oncopy".
    pub const ONCOPY: u64 = 0x0079_706f_636e_6f61;
    /// Of "oncut".
    pub const ONCUT: u64 = 0x0000_7475_636e_6f51;
    /// Of "ondataavailable".
    pub const ONDATAAVAILABLE: u64 = 0x0000_00b9_0000_0002;
    /// Of "ondatasetchanged".
    pub const ONDATASETCHANGED: u64 = 0x0000_000f_0000_0002;
    /// Of "ondatasetcomplete".
    pub const ONDATASETCOMPLETE: u64 = 0x0000_01e6_0000_0002;
    /// Of "ondblclick".
    pub const ONDBLCLICK: u64 = 0x0000_00a0_0000_0002;
    /// Of "ondeactivate".
    pub const ONDEACTIVATE: u64 = 0x0000_009d_0000_0002;
    /// Of "ondrag".
    pub const ONDRAG: u64 = 0x0067_6172_646e_6f61;
    /// Of "ondragdrop".
    pub const ONDRAGDROP: u64 = 0x0000_005f_0000_0002;
    /// Of "ondragend".
    pub const ONDRAGEND: u64 = 0x0000_0137_0000_0002;
    /// Of "ondragenter".
    pub const ONDRAGENTER: u64 = 0x0000_015b_0000_0002;
    /// Of "ondragleave".
    pub const ONDRAGLEAVE: u64 = 0x0000_0125_0000_0002;
    /// Of "ondragover".
    pub const ONDRAGOVER: u64 = 0x0000_0005_0000_0002;
    /// Of "ondragstart".
    pub const ONDRAGSTART: u64 = 0x0000_01a2_0000_0002;
    /// Of "ondrop".
    pub const ONDROP: u64 = 0x0070_6f72_646e_6f61;
    /// Of "onend".
    pub const ONEND: u64 = 0x0000_646e_656e_6f51;
    /// Of "onerror".
    pub const ONERROR: u64 = 0x726f_7272_656e_6f71;
    /// Of "onerrorupdate".
    pub const ONERRORUPDATE: u64 = 0x0000_01e2_0000_0002;
    /// Of "onfilterchange".
    pub const ONFILTERCHANGE: u64 = 0x0000_00fe_0000_0002;
    /// Of "onfinish".
    pub const ONFINISH: u64 = 0x0000_014c_0000_0002;
    /// Of "onfocus".
    pub const ONFOCUS: u64 = 0x7375_636f_666e_6f71;
    /// Of "onfocusin".
    pub const ONFOCUSIN: u64 = 0x0000_0008_0000_0002;
    /// Of "onfocusout".
    pub const ONFOCUSOUT: u64 = 0x0000_0048_0000_0002;
    /// Of "onformchange".
    pub const ONFORMCHANGE: u64 = 0x0000_013c_0000_0002;
    /// Of "onforminput".
    pub const ONFORMINPUT: u64 = 0x0000_0049_0000_0002;
    /// Of "onhashchange".
    pub const ONHASHCHANGE: u64 = 0x0000_0132_0000_0002;
    /// Of "onhelp".
    pub const ONHELP: u64 = 0x0070_6c65_686e_6f61;
    /// Of "oninput".
    pub const ONINPUT: u64 = 0x7475_706e_696e_6f71;
    /// Of "oninvalid".
    pub const ONINVALID: u64 = 0x0000_00c2_0000_0002;
    /// Of "onkeydown".
    pub const ONKEYDOWN: u64 = 0x0000_0067_0000_0002;
    /// Of "onkeypress".
    pub const ONKEYPRESS: u64 = 0x0000_012b_0000_0002;
    /// Of "onkeyup".
    pub const ONKEYUP: u64 = 0x7075_7965_6b6e_6f71;
    /// Of "onlanguagechange".
    pub const ONLANGUAGECHANGE: u64 = 0x0000_0133_0000_0002;
    /// Of "onload".
    pub const ONLOAD: u64 = 0x0064_616f_6c6e_6f61;
    /// Of "onlosecapture".
    pub const ONLOSECAPTURE: u64 = 0x0000_0076_0000_0002;
    /// Of "onmessage".
    pub const ONMESSAGE: u64 = 0x0000_0197_0000_0002;
    /// Of "onmousedown".
    pub const ONMOUSEDOWN: u64 = 0x0000_00b3_0000_0002;
    /// Of "onmouseenter".
    pub const ONMOUSEENTER: u64 = 0x0000_0017_0000_0002;
    /// Of "onmouseleave".
    pub const ONMOUSELEAVE: u64 = 0x0000_004d_0000_0002;
    /// Of "onmousemove".
    pub const ONMOUSEMOVE: u64 = 0x0000_0027_0000_0002;
    /// Of "onmouseout".
    pub const ONMOUSEOUT: u64 = 0x0000_0084_0000_0002;
    /// Of "onmouseover".
    pub const ONMOUSEOVER: u64 = 0x0000_0143_0000_0002;
    /// Of "onmouseup".
    pub const ONMOUSEUP: u64 = 0x0000_005a_0000_0002;
    /// Of "onmousewheel".
    pub const ONMOUSEWHEEL: u64 = 0x0000_011a_0000_0002;
    /// Of "onmove".
    pub const ONMOVE: u64 = 0x0065_766f_6d6e_6f61;
    /// Of "onmoveend".
    pub const ONMOVEEND: u64 = 0x0000_0032_0000_0002;
    /// Of "onmovestart".
    pub const ONMOVESTART: u64 = 0x0000_01c2_0000_0002;
    /// Of "onoffline".
    pub const ONOFFLINE: u64 = 0x0000_01b6_0000_0002;
    /// Of "ononline".
    pub const ONONLINE: u64 = 0x0000_0159_0000_0002;
    /// Of "onpagehide".
    pub const ONPAGEHIDE: u64 = 0x0000_0003_0000_0002;
    /// Of "onpageshow".
    pub const ONPAGESHOW: u64 = 0x0000_017b_0000_0002;
    /// Of "onpaste".
    pub const ONPASTE: u64 = 0x6574_7361_706e_6f71;
    /// Of "onpopstate".
    pub const ONPOPSTATE: u64 = 0x0000_00b1_0000_0002;
    /// Of "onpropertychange".
    pub const ONPROPERTYCHANGE: u64 = 0x0000_00a3_0000_0002;
    /// Of "onreadystatechange".
    pub const ONREADYSTATECHANGE: u64 = 0x0000_00d4_0000_0002;
    /// Of "onrepeat".
    pub const ONREPEAT: u64 = 0x0000_0055_0000_0002;
    /// Of "onreset".
    pub const ONRESET: u64 = 0x7465_7365_726e_6f71;
    /// Of "onresize".
    pub const ONRESIZE: u64 = 0x0000_00ed_0000_0002;
    /// Of "onrowenter".
    pub const ONROWENTER: u64 = 0x0000_00ae_0000_0002;
    /// Of "onrowexit".
    pub const ONROWEXIT: u64 = 0x0000_0065_0000_0002;
    /// Of "onrowsdelete".
    pub const ONROWSDELETE: u64 = 0x0000_008d_0000_0002;
    /// Of "onrowsinserted".
    pub const ONROWSINSERTED: u64 = 0x0000_0102_0000_0002;
    /// Of "onscroll".
    pub const ONSCROLL: u64 = 0x0000_01c0_0000_0002;
    /// Of "onselect".
    pub const ONSELECT: u64 = 0x0000_0136_0000_0002;
    /// Of "onselectstart".
    pub const ONSELECTSTART: u64 = 0x0000_00eb_0000_0002;
    /// Of "onstart".
    pub const ONSTART: u64 = 0x7472_6174_736e_6f71;
    /// Of "onstop".
    pub const ONSTOP: u64 = 0x0070_6f74_736e_6f61;
    /// Of "onstorage".
    pub const ONSTORAGE: u64 = 0x0000_0073_0000_0002;
    /// Of "onsubmit".
    pub const ONSUBMIT: u64 = 0x0000_0090_0000_0002;
    /// Of "onunload".
    pub const ONUNLOAD: u64 = 0x0000_0177_0000_0002;
    /// Of "onzoom".
    pub const ONZOOM: u64 = 0x006d_6f6f_7a6e_6f61;
    /// Of "opacity".
    pub const OPACITY: u64 = 0x7974_6963_6170_6f71;
    /// Of "open".
    pub const OPEN: u64 = 0x0000_006e_6570_6f41;
    /// Of "operator".
    pub const OPERATOR: u64 = 0x0000_0075_0000_0002;
    /// Of "optgroup".
    pub const OPTGROUP: u64 = 0x0000_0025_0000_0002;
    /// Of "optimum".
    pub const OPTIMUM: u64 = 0x6d75_6d69_7470_6f71;
    /// Of "option".
    pub const OPTION: u64 = 0x006e_6f69_7470_6f61;
    /// Of "or".
    pub const OR: u64 = 0x0000_0000_0072_6f21;
    /// Of "order".
    pub const ORDER: u64 = 0x0000_7265_6472_6f51;
    /// Of "orient".
    pub const ORIENT: u64 = 0x0074_6e65_6972_6f61;
    /// Of "orientation".
    pub const ORIENTATION: u64 = 0x0000_01b3_0000_0002;
    /// Of "origin".
    pub const ORIGIN: u64 = 0x006e_6967_6972_6f61;
    /// Of "other".
    pub const OTHER: u64 = 0x0000_7265_6874_6f51;
    /// Of "otherwise".
    pub const OTHERWISE: u64 = 0x0000_01dc_0000_0002;
    /// Of "outerproduct".
    pub const OUTERPRODUCT: u64 = 0x0000_0020_0000_0002;
    /// Of "output".
    pub const OUTPUT: u64 = 0x0074_7570_7475_6f61;
    /// Of "overflow".
    pub const OVERFLOW: u64 = 0x0000_0124_0000_0002;
    /// Of "overline-position".
    pub const OVERLINE_POSITION: u64 = 0x0000_01b4_0000_0002;
    /// Of "overline-thickness".
    pub const OVERLINE_THICKNESS: u64 = 0x0000_00be_0000_0002;
    /// Of "p".
    pub const P: u64 = 0x0000_0000_0000_7011;
    /// Of "panose-1".
    pub const PANOSE_1: u64 = 0x0000_01ab_0000_0002;
    /// Of "param".
    pub const PARAM: u64 = 0x0000_6d61_7261_7051;
    /// Of "parse".
    pub const PARSE: u64 = 0x0000_6573_7261_7051;
    /// Of "partialdiff".
    pub const PARTIALDIFF: u64 = 0x0000_00c9_0000_0002;
    /// Of "path".
    pub const PATH: u64 = 0x0000_0068_7461_7041;
    /// Of "pathLength".
    pub const PATH_LENGTH: u64 = 0x0000_0054_0000_0002;
    /// Of "pattern".
    pub const PATTERN: u64 = 0x6e72_6574_7461_7071;
    /// Of "patternContentUnits".
    pub const PATTERN_CONTENT_UNITS: u64 = 0x0000_0192_0000_0002;
    /// Of "patternTransform".
    pub const PATTERN_TRANSFORM: u64 = 0x0000_0190_0000_0002;
    /// Of "patternUnits".
    pub const PATTERN_UNITS: u64 = 0x0000_010e_0000_0002;
    /// Of "pi".
    pub const PI: u64 = 0x0000_0000_0069_7021;
    /// Of "picture".
    pub const PICTURE: u64 = 0x6572_7574_6369_7071;
    /// Of "piece".
    pub const PIECE: u64 = 0x0000_6563_6569_7051;
    /// Of "piecewise".
    pub const PIECEWISE: u64 = 0x0000_01a4_0000_0002;
    /// Of "ping".
    pub const PING: u64 = 0x0000_0067_6e69_7041;
    /// Of "placeholder".
    pub const PLACEHOLDER: u64 = 0x0000_00f8_0000_0002;
    /// Of "plaintext".
    pub const PLAINTEXT: u64 = 0x0000_0082_0000_0002;
    /// Of "plus".
    pub const PLUS: u64 = 0x0000_0073_756c_7041;
    /// Of "pointer-events".
    pub const POINTER_EVENTS: u64 = 0x0000_009a_0000_0002;
    /// Of "points".
    pub const POINTS: u64 = 0x0073_746e_696f_7061;
    /// Of "pointsAtX".
    pub const POINTS_AT_X: u64 = 0x0000_01eb_0000_0002;
    /// Of "pointsAtY".
    pub const POINTS_AT_Y: u64 = 0x0000_016d_0000_0002;
    /// Of "pointsAtZ".
    pub const POINTS_AT_Z: u64 = 0x0000_00f6_0000_0002;
    /// Of "polygon".
    pub const POLYGON: u64 = 0x6e6f_6779_6c6f_7071;
    /// Of "polyline".
    pub const POLYLINE: u64 = 0x0000_011b_0000_0002;
    /// Of "poster".
    pub const POSTER: u64 = 0x0072_6574_736f_7061;
    /// Of "power".
    pub const POWER: u64 = 0x0000_7265_776f_7051;
    /// Of "pre".
    pub const PRE: u64 = 0x0000_0000_6572_7031;
    /// Of "prefetch".
    pub const PREFETCH: u64 = 0x0000_015f_0000_0002;
    /// Of "preload".
    pub const PRELOAD: u64 = 0x6461_6f6c_6572_7071;
    /// Of "preserveAlpha".
    pub const PRESERVE_ALPHA: u64 = 0x0000_017f_0000_0002;
    /// Of "preserveAspectRatio".
    pub const PRESERVE_ASPECT_RATIO: u64 = 0x0000_0182_0000_0002;
    /// Of "primes".
    pub const PRIMES: u64 = 0x0073_656d_6972_7061;
    /// Of "primitiveUnits".
    pub const PRIMITIVE_UNITS: u64 = 0x0000_00bc_0000_0002;
    /// Of "product".
    pub const PRODUCT: u64 = 0x7463_7564_6f72_7071;
    /// Of "profile".
    pub const PROFILE: u64 = 0x656c_6966_6f72_7071;
    /// Of "progress".
    pub const PROGRESS: u64 = 0x0000_017a_0000_0002;
    /// Of "prompt".
    pub const PROMPT: u64 = 0x0074_706d_6f72_7061;
    /// Of "property".
    pub const PROPERTY: u64 = 0x0000_002b_0000_0002;
    /// Of "prsubset".
    pub const PRSUBSET: u64 = 0x0000_0151_0000_0002;
    /// Of "q".
    pub const Q: u64 = 0x0000_0000_0000_7111;
    /// Of "quotient".
    pub const QUOTIENT: u64 = 0x0000_003b_0000_0002;
    /// Of "r".
    pub const R: u64 = 0x0000_0000_0000_7211;
    /// Of "radialGradient".
    pub const RADIAL_GRADIENT: u64 = 0x0000_00e4_0000_0002;
    /// Of "radiogroup".
    pub const RADIOGROUP: u64 = 0x0000_015d_0000_0002;
    /// Of "radius".
    pub const RADIUS: u64 = 0x0073_7569_6461_7261;
    /// Of "rationals".
    pub const RATIONALS: u64 = 0x0000_007b_0000_0002;
    /// Of "rb".
    pub const RB: u64 = 0x0000_0000_0062_7221;
    /// Of "readonly".
    pub const READONLY: u64 = 0x0000_0179_0000_0002;
    /// Of "real".
    pub const REAL: u64 = 0x0000_006c_6165_7241;
    /// Of "reals".
    pub const REALS: u64 = 0x0000_736c_6165_7251;
    /// Of "rect".
    pub const RECT: u64 = 0x0000_0074_6365_7241;
    /// Of "refX".
    pub const REF_X: u64 = 0x0000_0058_6665_7241;
    /// Of "refY".
    pub const REF_Y: u64 = 0x0000_0059_6665_7241;
    /// Of "referrerpolicy".
    pub const REFERRERPOLICY: u64 = 0x0000_014e_0000_0002;
    /// Of "rel".
    pub const REL: u64 = 0x0000_0000_6c65_7231;
    /// Of "reln".
    pub const RELN: u64 = 0x0000_006e_6c65_7241;
    /// Of "rem".
    pub const REM: u64 = 0x0000_0000_6d65_7231;
    /// Of "rendering-intent".
    pub const RENDERING_INTENT: u64 = 0x0000_01e4_0000_0002;
    /// Of "repeat".
    pub const REPEAT: u64 = 0x0074_6165_7065_7261;
    /// Of "repeat-max".
    pub const REPEAT_MAX: u64 = 0x0000_0026_0000_0002;
    /// Of "repeat-min".
    pub const REPEAT_MIN: u64 = 0x0000_001d_0000_0002;
    /// Of "repeat-start".
    pub const REPEAT_START: u64 = 0x0000_0037_0000_0002;
    /// Of "repeat-template".
    pub const REPEAT_TEMPLATE: u64 = 0x0000_00fb_0000_0002;
    /// Of "repeatCount".
    pub const REPEAT_COUNT: u64 = 0x0000_0110_0000_0002;
    /// Of "repeatDur".
    pub const REPEAT_DUR: u64 = 0x0000_0015_0000_0002;
    /// Of "replace".
    pub const REPLACE: u64 = 0x6563_616c_7065_7271;
    /// Of "required".
    pub const REQUIRED: u64 = 0x0000_0071_0000_0002;
    /// Of "requiredExtensions".
    pub const REQUIRED_EXTENSIONS: u64 = 0x0000_00f2_0000_0002;
    /// Of "requiredFeatures".
    pub const REQUIRED_FEATURES: u64 = 0x0000_01da_0000_0002;
    /// Of "restart".
    pub const RESTART: u64 = 0x7472_6174_7365_7271;
    /// Of "result".
    pub const RESULT: u64 = 0x0074_6c75_7365_7261;
    /// Of "rev".
    pub const REV: u64 = 0x0000_0000_7665_7231;
    /// Of "reversed".
    pub const REVERSED: u64 = 0x0000_003d_0000_0002;
    /// Of "role".
    pub const ROLE: u64 = 0x0000_0065_6c6f_7241;
    /// Of "root".
    pub const ROOT: u64 = 0x0000_0074_6f6f_7241;
    /// Of "rotate".
    pub const ROTATE: u64 = 0x0065_7461_746f_7261;
    /// Of "rowalign".
    pub const ROWALIGN: u64 = 0x0000_011e_0000_0002;
    /// Of "rowlines".
    pub const ROWLINES: u64 = 0x0000_01ac_0000_0002;
    /// Of "rows".
    pub const ROWS: u64 = 0x0000_0073_776f_7241;
    /// Of "rowspacing".
    pub const ROWSPACING: u64 = 0x0000_00ce_0000_0002;
    /// Of "rowspan".
    pub const ROWSPAN: u64 = 0x6e61_7073_776f_7271;
    /// Of "rp".
    pub const RP: u64 = 0x0000_0000_0070_7221;
    /// Of "rquote".
    pub const RQUOTE: u64 = 0x0065_746f_7571_7261;
    /// Of "rspace".
    pub const RSPACE: u64 = 0x0065_6361_7073_7261;
    /// Of "rt".
    pub const RT: u64 = 0x0000_0000_0074_7221;
    /// Of "rtc".
    pub const RTC: u64 = 0x0000_0000_6374_7231;
    /// Of "ruby".
    pub const RUBY: u64 = 0x0000_0079_6275_7241;
    /// Of "rule".
    pub const RULE: u64 = 0x0000_0065_6c75_7241;
    /// Of "rules".
    pub const RULES: u64 = 0x0000_7365_6c75_7251;
    /// Of "rx".
    pub const RX: u64 = 0x0000_0000_0078_7221;
    /// Of "ry".
    pub const RY: u64 = 0x0000_0000_0079_7221;
    /// Of "s".
    pub const S: u64 = 0x0000_0000_0000_7311;
    /// Of "samp".
    pub const SAMP: u64 = 0x0000_0070_6d61_7341;
    /// Of "sandbox".
    pub const SANDBOX: u64 = 0x786f_6264_6e61_7371;
    /// Of "scalarproduct".
    pub const SCALARPRODUCT: u64 = 0x0000_00c3_0000_0002;
    /// Of "scale".
    pub const SCALE: u64 = 0x0000_656c_6163_7351;
    /// Of "scheme".
    pub const SCHEME: u64 = 0x0065_6d65_6863_7361;
    /// Of "scope".
    pub const SCOPE: u64 = 0x0000_6570_6f63_7351;
    /// Of "scoped".
    pub const SCOPED: u64 = 0x0064_6570_6f63_7361;
    /// Of "script".
    pub const SCRIPT: u64 = 0x0074_7069_7263_7361;
    /// Of "scriptlevel".
    pub const SCRIPTLEVEL: u64 = 0x0000_005b_0000_0002;
    /// Of "scriptminsize".
    pub const SCRIPTMINSIZE: u64 = 0x0000_0171_0000_0002;
    /// Of "scriptsizemultiplier".
    pub const SCRIPTSIZEMULTIPLIER: u64 = 0x0000_0059_0000_0002;
    /// Of "scrolldelay".
    pub const SCROLLDELAY: u64 = 0x0000_00de_0000_0002;
    /// Of "scrolling".
    pub const SCROLLING: u64 = 0x0000_00ea_0000_0002;
    /// Of "sdev".
    pub const SDEV: u64 = 0x0000_0076_6564_7341;
    /// Of "seamless".
    pub const SEAMLESS: u64 = 0x0000_0162_0000_0002;
    /// Of "sec".
    pub const SEC: u64 = 0x0000_0000_6365_7331;
    /// Of "sech".
    pub const SECH: u64 = 0x0000_0068_6365_7341;
    /// Of "section".
    pub const SECTION: u64 = 0x6e6f_6974_6365_7371;
    /// Of "seed".
    pub const SEED: u64 = 0x0000_0064_6565_7341;
    /// Of "select".
    pub const SELECT: u64 = 0x0074_6365_6c65_7361;
    /// Of "selected".
    pub const SELECTED: u64 = 0x0000_0046_0000_0002;
    /// Of "selection".
    pub const SELECTION: u64 = 0x0000_010d_0000_0002;
    /// Of "selector".
    pub const SELECTOR: u64 = 0x0000_0191_0000_0002;
    /// Of "semantics".
    pub const SEMANTICS: u64 = 0x0000_0077_0000_0002;
    /// Of "sep".
    pub const SEP: u64 = 0x0000_0000_7065_7331;
    /// Of "separator".
    pub const SEPARATOR: u64 = 0x0000_017d_0000_0002;
    /// Of "separators".
    pub const SEPARATORS: u64 = 0x0000_0173_0000_0002;
    /// Of "set".
    pub const SET: u64 = 0x0000_0000_7465_7331;
    /// Of "setdiff".
    pub const SETDIFF: u64 = 0x6666_6964_7465_7371;
    /// Of "shape".
    pub const SHAPE: u64 = 0x0000_6570_6168_7351;
    /// Of "shape-rendering".
    pub const SHAPE_RENDERING: u64 = 0x0000_0078_0000_0002;
    /// Of "show".
    pub const SHOW: u64 = 0x0000_0077_6f68_7341;
    /// Of "sin".
    pub const SIN: u64 = 0x0000_0000_6e69_7331;
    /// Of "sinh".
    pub const SINH: u64 = 0x0000_0068_6e69_7341;
    /// Of "size".
    pub const SIZE: u64 = 0x0000_0065_7a69_7341;
    /// Of "sizes".
    pub const SIZES: u64 = 0x0000_7365_7a69_7351;
    /// Of "slope".
    pub const SLOPE: u64 = 0x0000_6570_6f6c_7351;
    /// Of "slot".
    pub const SLOT: u64 = 0x0000_0074_6f6c_7341;
    /// Of "small".
    pub const SMALL: u64 = 0x0000_6c6c_616d_7351;
    /// Of "solidcolor".
    pub const SOLIDCOLOR: u64 = 0x0000_0152_0000_0002;
    /// Of "source".
    pub const SOURCE: u64 = 0x0065_6372_756f_7361;
    /// Of "space".
    pub const SPACE: u64 = 0x0000_6563_6170_7351;
    /// Of "spacer".
    pub const SPACER: u64 = 0x0072_6563_6170_7361;
    /// Of "spacing".
    pub const SPACING: u64 = 0x676e_6963_6170_7371;
    /// Of "span".
    pub const SPAN: u64 = 0x0000_006e_6170_7341;
    /// Of "specification".
    pub const SPECIFICATION: u64 = 0x0000_01bf_0000_0002;
    /// Of "specularConstant".
    pub const SPECULAR_CONSTANT: u64 = 0x0000_0113_0000_0002;
    /// Of "specularExponent".
    pub const SPECULAR_EXPONENT: u64 = 0x0000_00c4_0000_0002;
    /// Of "speed".
    pub const SPEED: u64 = 0x0000_6465_6570_7351;
    /// Of "spellcheck".
    pub const SPELLCHECK: u64 = 0x0000_003c_0000_0002;
    /// Of "spreadMethod".
    pub const SPREAD_METHOD: u64 = 0x0000_0114_0000_0002;
    /// Of "src".
    pub const SRC: u64 = 0x0000_0000_6372_7331;
    /// Of "srcdoc".
    pub const SRCDOC: u64 = 0x0063_6f64_6372_7361;
    /// Of "srclang".
    pub const SRCLANG: u64 = 0x676e_616c_6372_7371;
    /// Of "srcset".
    pub const SRCSET: u64 = 0x0074_6573_6372_7361;
    /// Of "standby".
    pub const STANDBY: u64 = 0x7962_646e_6174_7371;
    /// Of "start".
    pub const START: u64 = 0x0000_7472_6174_7351;
    /// Of "startOffset".
    pub const START_OFFSET: u64 = 0x0000_00f5_0000_0002;
    /// Of "statechange".
    pub const STATECHANGE: u64 = 0x0000_00ee_0000_0002;
    /// Of "stdDeviation".
    pub const STD_DEVIATION: u64 = 0x0000_0131_0000_0002;
    /// Of "stemh".
    pub const STEMH: u64 = 0x0000_686d_6574_7351;
    /// Of "stemv".
    pub const STEMV: u64 = 0x0000_766d_6574_7351;
    /// Of "step".
    pub const STEP: u64 = 0x0000_0070_6574_7341;
    /// Of "stitchTiles".
    pub const STITCH_TILES: u64 = 0x0000_00af_0000_0002;
    /// Of "stop".
    pub const STOP: u64 = 0x0000_0070_6f74_7341;
    /// Of "stop-color".
    pub const STOP_COLOR: u64 = 0x0000_0101_0000_0002;
    /// Of "stop-opacity".
    pub const STOP_OPACITY: u64 = 0x0000_0144_0000_0002;
    /// Of "stretchy".
    pub const STRETCHY: u64 = 0x0000_0155_0000_0002;
    /// Of "strike".
    pub const STRIKE: u64 = 0x0065_6b69_7274_7361;
    /// Of "strikethrough-position".
    pub const STRIKETHROUGH_POSITION: u64 = 0x0000_015c_0000_0002;
    /// Of "strikethrough-thickness".
    pub const STRIKETHROUGH_THICKNESS: u64 = 0x0000_017e_0000_0002;
    /// Of "string".
    pub const STRING: u64 = 0x0067_6e69_7274_7361;
    /// Of "stroke".
    pub const STROKE: u64 = 0x0065_6b6f_7274_7361;
    /// Of "stroke-dasharray".
    pub const STROKE_DASHARRAY: u64 = 0x0000_0085_0000_0002;
    /// Of "stroke-dashoffset".
    pub const STROKE_DASHOFFSET: u64 = 0x0000_01be_0000_0002;
    /// Of "stroke-linecap".
    pub const STROKE_LINECAP: u64 = 0x0000_00f9_0000_0002;
    /// Of "stroke-linejoin".
    pub const STROKE_LINEJOIN: u64 = 0x0000_00cc_0000_0002;
    /// Of "stroke-miterlimit".
    pub const STROKE_MITERLIMIT: u64 = 0x0000_00bd_0000_0002;
    /// Of "stroke-opacity".
    pub const STROKE_OPACITY: u64 = 0x0000_018e_0000_0002;
    /// Of "stroke-width".
    pub const STROKE_WIDTH: u64 = 0x0000_0001_0000_0002;
    /// Of "strong".
    pub const STRONG: u64 = 0x0067_6e6f_7274_7361;
    /// Of "style".
    pub const STYLE: u64 = 0x0000_656c_7974_7351;
    /// Of "sub".
    pub const SUB: u64 = 0x0000_0000_6275_7331;
    /// Of "subscriptshift".
    pub const SUBSCRIPTSHIFT: u64 = 0x0000_001f_0000_0002;
    /// Of "subset".
    pub const SUBSET: u64 = 0x0074_6573_6275_7361;
    /// Of "sum".
    pub const SUM: u64 = 0x0000_0000_6d75_7331;
    /// Of "summary".
    pub const SUMMARY: u64 = 0x7972_616d_6d75_7371;
    /// Of "sup".
    pub const SUP: u64 = 0x0000_0000_7075_7331;
    /// Of "superscriptshift".
    pub const SUPERSCRIPTSHIFT: u64 = 0x0000_0194_0000_0002;
    /// Of "surfaceScale".
    pub const SURFACE_SCALE: u64 = 0x0000_0010_0000_0002;
    /// Of "svg".
    pub const SVG: u64 = 0x0000_0000_6776_7331;
    /// Of "switch".
    pub const SWITCH: u64 = 0x0068_6374_6977_7361;
    /// Of "symbol".
    pub const SYMBOL: u64 = 0x006c_6f62_6d79_7361;
    /// Of "symmetric".
    pub const SYMMETRIC: u64 = 0x0000_0142_0000_0002;
    /// Of "systemLanguage".
    pub const SYSTEM_LANGUAGE: u64 = 0x0000_00db_0000_0002;
    /// Of "tabindex".
    pub const TABINDEX: u64 = 0x0000_004a_0000_0002;
    /// Of "table".
    pub const TABLE: u64 = 0x0000_656c_6261_7451;
    /// Of "tableValues".
    pub const TABLE_VALUES: u64 = 0x0000_018a_0000_0002;
    /// Of "tan".
    pub const TAN: u64 = 0x0000_0000_6e61_7431;
    /// Of "tanh".
    pub const TANH: u64 = 0x0000_0068_6e61_7441;
    /// Of "target".
    pub const TARGET: u64 = 0x0074_6567_7261_7461;
    /// Of "targetX".
    pub const TARGET_X: u64 = 0x5874_6567_7261_7471;
    /// Of "targetY".
    pub const TARGET_Y: u64 = 0x5974_6567_7261_7471;
    /// Of "tbody".
    pub const TBODY: u64 = 0x0000_7964_6f62_7451;
    /// Of "tbreak".
    pub const TBREAK: u64 = 0x006b_6165_7262_7461;
    /// Of "td".
    pub const TD: u64 = 0x0000_0000_0064_7421;
    /// Of "template".
    pub const TEMPLATE: u64 = 0x0000_0044_0000_0002;
    /// Of "tendsto".
    pub const TENDSTO: u64 = 0x6f74_7364_6e65_7471;
    /// Of "text".
    pub const TEXT: u64 = 0x0000_0074_7865_7441;
    /// Of "text-anchor".
    pub const TEXT_ANCHOR: u64 = 0x0000_0006_0000_0002;
    /// Of "text-decoration".
    pub const TEXT_DECORATION: u64 = 0x0000_0089_0000_0002;
    /// Of "text-rendering".
    pub const TEXT_RENDERING: u64 = 0x0000_0002_0000_0002;
    /// Of "textLength".
    pub const TEXT_LENGTH: u64 = 0x0000_014a_0000_0002;
    /// Of "textPath".
    pub const TEXT_PATH: u64 = 0x0000_0189_0000_0002;
    /// Of "textarea".
    pub const TEXTAREA: u64 = 0x0000_01c3_0000_0002;
    /// Of "tfoot".
    pub const TFOOT: u64 = 0x0000_746f_6f66_7451;
    /// Of "th".
    pub const TH: u64 = 0x0000_0000_0068_7421;
    /// Of "thead".
    pub const THEAD: u64 = 0x0000_6461_6568_7451;
    /// Of "thickmathspace".
    pub const THICKMATHSPACE: u64 = 0x0000_0128_0000_0002;
    /// Of "thinmathspace".
    pub const THINMATHSPACE: u64 = 0x0000_01e0_0000_0002;
    /// Of "time".
    pub const TIME: u64 = 0x0000_0065_6d69_7441;
    /// Of "times".
    pub const TIMES: u64 = 0x0000_7365_6d69_7451;
    /// Of "title".
    pub const TITLE: u64 = 0x0000_656c_7469_7451;
    /// Of "to".
    pub const TO: u64 = 0x0000_0000_006f_7421;
    /// Of "toggle".
    pub const TOGGLE: u64 = 0x0065_6c67_676f_7461;
    /// Of "tr".
    pub const TR: u64 = 0x0000_0000_0072_7421;
    /// Of "track".
    pub const TRACK: u64 = 0x0000_6b63_6172_7451;
    /// Of "transform".
    pub const TRANSFORM: u64 = 0x0000_00b4_0000_0002;
    /// Of "translate".
    pub const TRANSLATE: u64 = 0x0000_0115_0000_0002;
    /// Of "transpose".
    pub const TRANSPOSE: u64 = 0x0000_002c_0000_0002;
    /// Of "tref".
    pub const TREF: u64 = 0x0000_0066_6572_7441;
    /// Of "true".
    pub const TRUE: u64 = 0x0000_0065_7572_7441;
    /// Of "tspan".
    pub const TSPAN: u64 = 0x0000_6e61_7073_7451;
    /// Of "tt".
    pub const TT: u64 = 0x0000_0000_0074_7421;
    /// Of "type".
    pub const TYPE: u64 = 0x0000_0065_7079_7441;
    /// Of "u".
    pub const U: u64 = 0x0000_0000_0000_7511;
    /// Of "u1".
    pub const U1: u64 = 0x0000_0000_0031_7521;
    /// Of "u2".
    pub const U2: u64 = 0x0000_0000_0032_7521;
    /// Of "ul".
    pub const UL: u64 = 0x0000_0000_006c_7521;
    /// Of "underline-position".
    pub const UNDERLINE_POSITION: u64 = 0x0000_00d7_0000_0002;
    /// Of "underline-thickness".
    pub const UNDERLINE_THICKNESS: u64 = 0x0000_0158_0000_0002;
    /// Of "unicode".
    pub const UNICODE: u64 = 0x6564_6f63_696e_7571;
    /// Of "unicode-bidi".
    pub const UNICODE_BIDI: u64 = 0x0000_006a_0000_0002;
    /// Of "unicode-range".
    pub const UNICODE_RANGE: u64 = 0x0000_00d6_0000_0002;
    /// Of "union".
    pub const UNION: u64 = 0x0000_6e6f_696e_7551;
    /// Of "units-per-em".
    pub const UNITS_PER_EM: u64 = 0x0000_001e_0000_0002;
    /// Of "unselectable".
    pub const UNSELECTABLE: u64 = 0x0000_00d8_0000_0002;
    /// Of "uplimit".
    pub const UPLIMIT: u64 = 0x7469_6d69_6c70_7571;
    /// Of "use".
    pub const USE: u64 = 0x0000_0000_6573_7531;
    /// Of "usemap".
    pub const USEMAP: u64 = 0x0070_616d_6573_7561;
    /// Of "v-alphabetic".
    pub const V_ALPHABETIC: u64 = 0x0000_0139_0000_0002;
    /// Of "v-hanging".
    pub const V_HANGING: u64 = 0x0000_0097_0000_0002;
    /// Of "v-ideographic".
    pub const V_IDEOGRAPHIC: u64 = 0x0000_0157_0000_0002;
    /// Of "v-mathematical".
    pub const V_MATHEMATICAL: u64 = 0x0000_006c_0000_0002;
    /// Of "valign".
    pub const VALIGN: u64 = 0x006e_6769_6c61_7661;
    /// Of "value".
    pub const VALUE: u64 = 0x0000_6575_6c61_7651;
    /// Of "values".
    pub const VALUES: u64 = 0x0073_6575_6c61_7661;
    /// Of "valuetype".
    pub const VALUETYPE: u64 = 0x0000_0196_0000_0002;
    /// Of "var".
    pub const VAR: u64 = 0x0000_0000_7261_7631;
    /// Of "variance".
    pub const VARIANCE: u64 = 0x0000_00b6_0000_0002;
    /// Of "vector".
    pub const VECTOR: u64 = 0x0072_6f74_6365_7661;
    /// Of "vectorproduct".
    pub const VECTORPRODUCT: u64 = 0x0000_0045_0000_0002;
    /// Of "version".
    pub const VERSION: u64 = 0x6e6f_6973_7265_7671;
    /// Of "vert-adv-y".
    pub const VERT_ADV_Y: u64 = 0x0000_00e0_0000_0002;
    /// Of "vert-origin-x".
    pub const VERT_ORIGIN_X: u64 = 0x0000_0012_0000_0002;
    /// Of "vert-origin-y".
    pub const VERT_ORIGIN_Y: u64 = 0x0000_01b7_0000_0002;
    /// Of "verythickmathspace".
    pub const VERYTHICKMATHSPACE: u64 = 0x0000_0195_0000_0002;
    /// Of "verythinmathspace".
    pub const VERYTHINMATHSPACE: u64 = 0x0000_01af_0000_0002;
    /// Of "veryverythickmathspace".
    pub const VERYVERYTHICKMATHSPACE: u64 = 0x0000_01bc_0000_0002;
    /// Of "veryverythinmathspace".
    pub const VERYVERYTHINMATHSPACE: u64 = 0x0000_0083_0000_0002;
    /// Of "video".
    pub const VIDEO: u64 = 0x0000_6f65_6469_7651;
    /// Of "view".
    pub const VIEW: u64 = 0x0000_0077_6569_7641;
    /// Of "viewBox".
    pub const VIEW_BOX: u64 = 0x786f_4277_6569_7671;
    /// Of "viewTarget".
    pub const VIEW_TARGET: u64 = 0x0000_003f_0000_0002;
    /// Of "visibility".
    pub const VISIBILITY: u64 = 0x0000_01d1_0000_0002;
    /// Of "vkern".
    pub const VKERN: u64 = 0x0000_6e72_656b_7651;
    /// Of "vlink".
    pub const VLINK: u64 = 0x0000_6b6e_696c_7651;
    /// Of "vspace".
    pub const VSPACE: u64 = 0x0065_6361_7073_7661;
    /// Of "wbr".
    pub const WBR: u64 = 0x0000_0000_7262_7731;
    /// Of "when".
    pub const WHEN: u64 = 0x0000_006e_6568_7741;
    /// Of "width".
    pub const WIDTH: u64 = 0x0000_6874_6469_7751;
    /// Of "widths".
    pub const WIDTHS: u64 = 0x0073_6874_6469_7761;
    /// Of "word-spacing".
    pub const WORD_SPACING: u64 = 0x0000_00e2_0000_0002;
    /// Of "wrap".
    pub const WRAP: u64 = 0x0000_0070_6172_7741;
    /// Of "writing-mode".
    pub const WRITING_MODE: u64 = 0x0000_0104_0000_0002;
    /// Of "x".
    pub const X: u64 = 0x0000_0000_0000_7811;
    /// Of "x-height".
    pub const X_HEIGHT: u64 = 0x0000_00f1_0000_0002;
    /// Of "x1".
    pub const X1: u64 = 0x0000_0000_0031_7821;
    /// Of "x2".
    pub const X2: u64 = 0x0000_0000_0032_7821;
    /// Of "xChannelSelector".
    pub const X_CHANNEL_SELECTOR: u64 = 0x0000_0040_0000_0002;
    /// Of "xlink".
    pub const XLINK: u64 = 0x0000_6b6e_696c_7851;
    /// Of "xlink:actuate".
    pub const XLINK_ACTUATE: u64 = 0x0000_01c4_0000_0002;
    /// Of "xlink:arcrole".
    pub const XLINK_ARCROLE: u64 = 0x0000_0009_0000_0002;
    /// Of "xlink:href".
    pub const XLINK_HREF: u64 = 0x0000_01d2_0000_0002;
    /// Of "xlink:role".
    pub const XLINK_ROLE: u64 = 0x0000_01d9_0000_0002;
    /// Of "xlink:show".
    pub const XLINK_SHOW: u64 = 0x0000_00a7_0000_0002;
    /// Of "xlink:title".
    pub const XLINK_TITLE: u64 = 0x0000_01cb_0000_0002;
    /// Of "xlink:type".
    pub const XLINK_TYPE: u64 = 0x0000_00c6_0000_0002;
    /// Of "xml:base".
    pub const XML_BASE: u64 = 0x0000_01c7_0000_0002;
    /// Of "xml:lang".
    pub const XML_LANG: u64 = 0x0000_0175_0000_0002;
    /// Of "xml:space".
    pub const XML_SPACE: u64 = 0x0000_01bb_0000_0002;
    /// Of "xmlns".
    pub const XMLNS: u64 = 0x0000_736e_6c6d_7851;
    /// Of "xmlns:xlink".
    pub const XMLNS_XLINK: u64 = 0x0000_012f_0000_0002;
    /// Of "xmp".
    pub const XMP: u64 = 0x0000_0000_706d_7831;
    /// Of "xor".
    pub const XOR: u64 = 0x0000_0000_726f_7831;
    /// Of "xref".
    pub const XREF: u64 = 0x0000_0066_6572_7841;
    /// Of "y".
    pub const Y: u64 = 0x0000_0000_0000_7911;
    /// Of "y1".
    pub const Y1: u64 = 0x0000_0000_0031_7921;
    /// Of "y2".
    pub const Y2: u64 = 0x0000_0000_0032_7921;
    /// Of "yChannelSelector".
    pub const Y_CHANNEL_SELECTOR: u64 = 0x0000_017c_0000_0002;
    /// Of "z".
    pub const Z: u64 = 0x0000_0000_0000_7a11;
    /// Of "zoomAndPan".
    pub const ZOOM_AND_PAN: u64 = 0x0000_0147_0000_0002;
}

impl PackedAtomSet for PageNamesTables {
    ghost use Rattle.std.proofs.Common.{lit<, refl};
    ghost use Rattle.text_forms.specs.Packed.{packed};
    ghost use Rattle.example_page_names.specs.declared.names.TheConstants.{PAGE_NAMES_DISPS, PAGE_NAMES_HASHES, PAGE_NAMES_SPANS, PAGE_NAMES_TEXT};

    ghost text = { PAGE_NAMES_TEXT.now };

    ghost spans = { PAGE_NAMES_SPANS };

    ghost tables = { packed 0 PAGE_NAMES_DISPS PAGE_NAMES_TEXT.now PAGE_NAMES_SPANS PAGE_NAMES_HASHES };

    ghost cut = { refl };

    ghost usable = { record { displaced = lit< tt; listed = lit< tt; few_disps = lit< tt; few_atoms = lit< tt; hashed = refl } };

    fn get() -> PackedStrSet {
        PackedStrSet {
            key: 0,
            disps: &PAGE_NAMES_DISPS,
            text: PAGE_NAMES_TEXT,
            spans: &PAGE_NAMES_SPANS,
            hashes: &PAGE_NAMES_HASHES,
        }
    }
}

/// The names, one a line.
#[cfg(test)]
#[rattlefmt::skip]
static PAGE_NAMES_LIST: &str = "a\nabbr\nabs\naccent\naccent-height\naccentunder\naccept\naccept-charset\naccesskey\naccumulate\nacronym\naction\nactiontype\nactive\nactuate\nadditive\naddress\nalign\nalignment-baseline\nalignmentscope\nalink\nallowfullscreen\nalphabetic\nalt\naltGlyph\naltGlyphDef\naltGlyphItem\naltimg\nalttext\namplitude\nand\nanimate\nanimateColor\nanimateMotion\nanimateTransform\nanimation\nannotation\nannotation-xml\napplet\napply\napprox\narabic-form\narccos\narccosh\narccot\narccoth\narccsc\narccsch\narchive\narcrole\narcsec\narcsech\narcsin\narcsinh\narctan\narctanh\narea\narg\naria-activedescendant\naria-atomic\naria-autocomplete\naria-busy\naria-channel\naria-checked\naria-controls\naria-datatype\naria-describedby\naria-disabled\naria-dropeffect\naria-expanded\naria-flowto\naria-grab\naria-haspopup\naria-hidden\naria-invalid\naria-labelledby\naria-level\naria-live\naria-multiline\naria-multiselectable\naria-owns\naria-posinset\naria-pressed\naria-readonly\naria-relevant\naria-required\naria-secret\naria-selected\naria-setsize\naria-sort\naria-templateid\naria-valuemax\naria-valuemin\naria-valuenow\narticle\nascent\naside\nasync\nattributeName\nattributeType\naudio\nautocomplete\nautofocus\nautoplay\nautosubmit\naxis\nazimuth\nb\nbackground\nbase\nbaseFrequency\nbaseProfile\nbasefont\nbaseline\nbaseline-shift\nbbox\nbdi\nbdo\nbegin\nbevelled\nbgcolor\nbgsound\nbias\nbig\nblink\nblockquote\nbody\nborder\nbr\nbutton\nbvar\nby\ncalcMode\ncanvas\ncap-height\ncaption\ncard\ncartesianproduct\nceiling\ncellpadding\ncellspacing\ncenter\nchar\ncharoff\ncharset\nchecked\nci\ncircle\ncite\nclass\nclassid\nclear\nclip\nclip-path\nclip-rule\nclipPath\nclipPathUnits\nclose\nclosure\ncn\ncode\ncodebase\ncodetype\ncodomain\ncol\ncolgroup\ncolor\ncolor-interpolation\ncolor-interpolation-filters\ncolor-profile\ncolor-rendering\ncols\ncolspan\ncolumnalign\ncolumnlines\ncolumnspacing\ncolumnspan\ncolumnwidth\ncompact\ncomplexes\ncompose\ncondition\nconjugate\ncontent\ncontentScriptType\ncontentStyleType\ncontenteditable\ncontextmenu\ncontrollerchange\ncontrols\ncoords\ncos\ncosh\ncot\ncoth\ncrossorigin\ncsc\ncsch\ncsymbol\ncurl\ncursor\ncx\ncy\nd\ndata\ndatafld\ndataformatas\ndatalist\ndatasrc\ndatatemplate\ndatetime\ndd\ndeclare\ndecoding\ndefault\ndefer\ndefinition-src\ndefinitionURL\ndefs\ndegree\ndel\ndepth\ndesc\ndescent\ndetails\ndeterminant\ndfn\ndialog\ndiff\ndiffuseConstant\ndir\ndirection\ndirname\ndisabled\ndiscard\ndisplay\ndisplaystyle\ndiv\ndivergence\ndivide\ndivisor\ndl\ndomain\ndomainofapplication\ndominant-baseline\ndownload\ndraggable\ndt\ndur\ndx\ndy\nedge\nedgeMode\nelevation\nellipse\nem\nembed\nemptyset\nenable-background\nencoding\nenctype\nend\neq\nequalcolumns\nequalrows\nequivalent\neulergamma\nevent\nexists\nexp\nexponent\nexponentiale\nexternalResourcesRequired\nface\nfactorial\nfactorof\nfalse\nfeBlend\nfeColorMatrix\nfeComponentTransfer\nfeComposite\nfeConvolveMatrix\nfeDiffuseLighting\nfeDisplacementMap\nfeDistantLight\nfeDropShadow\nfeFlood\nfeFuncA\nfeFuncB\nfeFuncG\nfeFuncR\nfeGaussianBlur\nfeImage\nfeMerge\nfeMergeNode\nfeMorphology\nfeOffset\nfePointLight\nfeSpecularLighting\nfeSpotLight\nfeTile\nfeTurbulence\nfence\nfetch\nfieldset\nfigcaption\nfigure\nfill\nfill-opacity\nfill-rule\nfilter\nfilterRes\nfilterUnits\nflood-color\nflood-opacity\nfloor\nfn\nfont\nfont-face\nfont-face-format\nfont-face-name\nfont-face-src\nfont-face-uri\nfont-family\nfont-size\nfont-size-adjust\nfont-stretch\nfont-style\nfont-variant\nfont-weight\nfontfamily\nfontsize\nfontstyle\nfontweight\nfooter\nfor\nforall\nforeignObject\nform\nformaction\nformat\nformenctype\nformmethod\nformnovalidate\nformtarget\nframe\nframeborder\nframeset\nframespacing\nfrom\nfx\nfy\ng\ng1\ng2\ngcd\ngeq\nglyph\nglyph-name\nglyph-orientation-horizontal\nglyph-orientation-vertical\nglyphRef\ngrad\ngradientTransform\ngradientUnits\ngroupalign\ngt\nh1\nh2\nh3\nh4\nh5\nh6\nhandler\nhanging\nhead\nheader\nheaders\nheight\nhgroup\nhidden\nhidefocus\nhigh\nhkern\nhoriz-adv-x\nhoriz-origin-x\nhoriz-origin-y\nhr\nhref\nhreflang\nhspace\nhtml\nhttp-equiv\ni\nicon\nid\nident\nideographic\niframe\nimage\nimage-rendering\nimaginary\nimaginaryi\nimg\nimplies\nin\nin2\nindex\ninfinity\ninput\ninputmode\nins\nint\nintegers\nintegrity\nintercept\nintersect\ninterval\ninverse\nirrelevant\nisindex\nismap\nitemid\nitemprop\nitemref\nitemscope\nitemtype\nk\nk1\nk2\nk3\nk4\nkbd\nkernelMatrix\nkernelUnitLength\nkerning\nkeyPoints\nkeySplines\nkeyTimes\nkeygen\nkind\nlabel\nlambda\nlang\nlanguage\nlaplacian\nlargeop\nlcm\nlegend\nlengthAdjust\nleq\nletter-spacing\nli\nlighting-color\nlimit\nlimitingConeAngle\nline\nline-height\nlinearGradient\nlinebreak\nlinethickness\nlink\nlist\nlistener\nlisting\nln\nlocal\nlog\nlogbase\nlongdesc\nloop\nlow\nlowlimit\nlowsrc\nlquote\nlspace\nlt\nmacros\nmaction\nmain\nmaligngroup\nmalignmark\nmanifest\nmap\nmarginheight\nmarginwidth\nmark\nmarker\nmarker-end\nmarker-mid\nmarker-start\nmarkerHeight\nmarkerUnits\nmarkerWidth\nmarquee\nmask\nmaskContentUnits\nmaskUnits\nmath\nmathbackground\nmathcolor\nmathematical\nmathsize\nmathvariant\nmatrix\nmatrixrow\nmax\nmaxlength\nmaxsize\nmean\nmedia\nmedian\nmediummathspace\nmenclose\nmenu\nmenuitem\nmerror\nmeta\nmetadata\nmeter\nmethod\nmfenced\nmfrac\nmglyph\nmi\nmin\nminlength\nminsize\nminus\nmissing-glyph\nmlabeledtr\nmmultiscripts\nmn\nmo\nmode\nmoment\nmomentabout\nmovablelimits\nmover\nmozbrowser\nmpadded\nmpath\nmphantom\nmprescripts\nmroot\nmrow\nms\nmspace\nmsqrt\nmstyle\nmsub\nmsubsup\nmsup\nmtable\nmtd\nmtext\nmtr\nmulticol\nmultiple\nmunder\nmunderover\nmuted\nname\nnargs\nnaturalnumbers\nnav\nneq\nnest\nnextid\nnobr\nnoembed\nnoframes\nnohref\nnomodule\nnonce\nnone\nnoresize\nnoscript\nnoshade\nnot\nnotanumber\nnotation\nnotin\nnotprsubset\nnotsubset\nnovalidate\nnowrap\nnumOctaves\nobject\noccurrence\noffset\nol\nonabort\nonactivate\nonafterprint\nonafterupdate\nonbefordeactivate\nonbeforeactivate\nonbeforecopy\nonbeforecut\nonbeforeeditfocus\nonbeforepaste\nonbeforeprint\nonbeforeunload\nonbeforeupdate\nonbegin\nonblur\nonbounce\noncellchange\nonchange\nonclick\noncontextmenu\noncontrolselect\noncopy\noncut\nondataavailable\nondatasetchanged\nondatasetcomplete\nondblclick\nondeactivate\nondrag\nondragdrop\nondragend\nondragenter\nondragleave\nondragover\nondragstart\nondrop\nonend\nonerror\nonerrorupdate\nonfilterchange\nonfinish\nonfocus\nonfocusin\nonfocusout\nonformchange\nonforminput\nonhashchange\nonhelp\noninput\noninvalid\nonkeydown\nonkeypress\nonkeyup\nonlanguagechange\nonload\nonlosecapture\nonmessage\nonmousedown\nonmouseenter\nonmouseleave\nonmousemove\nonmouseout\nonmouseover\nonmouseup\nonmousewheel\nonmove\nonmoveend\nonmovestart\nonoffline\nononline\nonpagehide\nonpageshow\nonpaste\nonpopstate\nonpropertychange\nonreadystatechange\nonrepeat\nonreset\nonresize\nonrowenter\nonrowexit\nonrowsdelete\nonrowsinserted\nonscroll\nonselect\nonselectstart\nonstart\nonstop\nonstorage\nonsubmit\nonunload\nonzoom\nopacity\nopen\noperator\noptgroup\noptimum\noption\nor\norder\norient\norientation\norigin\nother\notherwise\nouterproduct\noutput\noverflow\noverline-position\noverline-thickness\np\npanose-1\nparam\nparse\npartialdiff\npath\npathLength\npattern\npatternContentUnits\npatternTransform\npatternUnits\npi\npicture\npiece\npiecewise\nping\nplaceholder\nplaintext\nplus\npointer-events\npoints\npointsAtX\npointsAtY\npointsAtZ\npolygon\npolyline\nposter\npower\npre\nprefetch\npreload\npreserveAlpha\npreserveAspectRatio\nprimes\nprimitiveUnits\nproduct\nprofile\nprogress\nprompt\nproperty\nprsubset\nq\nquotient\nr\nradialGradient\nradiogroup\nradius\nrationals\nrb\nreadonly\nreal\nreals\nrect\nrefX\nrefY\nreferrerpolicy\nrel\nreln\nrem\nrendering-intent\nrepeat\nrepeat-max\nrepeat-min\nrepeat-start\nrepeat-template\nrepeatCount\nrepeatDur\nreplace\nrequired\nrequiredExtensions\nrequiredFeatures\nrestart\nresult\nrev\nreversed\nrole\nroot\nrotate\nrowalign\nrowlines\nrows\nrowspacing\nrowspan\nrp\nrquote\nrspace\nrt\nrtc\nruby\nrule\nrules\nrx\nry\ns\nsamp\nsandbox\nscalarproduct\nscale\nscheme\nscope\nscoped\nscript\nscriptlevel\nscriptminsize\nscriptsizemultiplier\nscrolldelay\nscrolling\nsdev\nseamless\nsec\nsech\nsection\nseed\nselect\nselected\nselection\nselector\nsemantics\nsep\nseparator\nseparators\nset\nsetdiff\nshape\nshape-rendering\nshow\nsin\nsinh\nsize\nsizes\nslope\nslot\nsmall\nsolidcolor\nsource\nspace\nspacer\nspacing\nspan\nspecification\nspecularConstant\nspecularExponent\nspeed\nspellcheck\nspreadMethod\nsrc\nsrcdoc\nsrclang\nsrcset\nstandby\nstart\nstartOffset\nstatechange\nstdDeviation\nstemh\nstemv\nstep\nstitchTiles\nstop\nstop-color\nstop-opacity\nstretchy\nstrike\nstrikethrough-position\nstrikethrough-thickness\nstring\nstroke\nstroke-dasharray\nstroke-dashoffset\nstroke-linecap\nstroke-linejoin\nstroke-miterlimit\nstroke-opacity\nstroke-width\nstrong\nstyle\nsub\nsubscriptshift\nsubset\nsum\nsummary\nsup\nsuperscriptshift\nsurfaceScale\nsvg\nswitch\nsymbol\nsymmetric\nsystemLanguage\ntabindex\ntable\ntableValues\ntan\ntanh\ntarget\ntargetX\ntargetY\ntbody\ntbreak\ntd\ntemplate\ntendsto\ntext\ntext-anchor\ntext-decoration\ntext-rendering\ntextLength\ntextPath\ntextarea\ntfoot\nth\nthead\nthickmathspace\nthinmathspace\ntime\ntimes\ntitle\nto\ntoggle\ntr\ntrack\ntransform\ntranslate\ntranspose\ntref\ntrue\ntspan\ntt\ntype\nu\nu1\nu2\nul\nunderline-position\nunderline-thickness\nunicode\nunicode-bidi\nunicode-range\nunion\nunits-per-em\nunselectable\nuplimit\nuse\nusemap\nv-alphabetic\nv-hanging\nv-ideographic\nv-mathematical\nvalign\nvalue\nvalues\nvaluetype\nvar\nvariance\nvector\nvectorproduct\nversion\nvert-adv-y\nvert-origin-x\nvert-origin-y\nverythickmathspace\nverythinmathspace\nveryverythickmathspace\nveryverythinmathspace\nvideo\nview\nviewBox\nviewTarget\nvisibility\nvkern\nvlink\nvspace\nwbr\nwhen\nwidth\nwidths\nword-spacing\nwrap\nwriting-mode\nx\nx-height\nx1\nx2\nxChannelSelector\nxlink\nxlink:actuate\nxlink:arcrole\nxlink:href\nxlink:role\nxlink:show\nxlink:title\nxlink:type\nxml:base\nxml:lang\nxml:space\nxmlns\nxmlns:xlink\nxmp\nxor\nxref\ny\ny1\ny2\nyChannelSelector\nz\nzoomAndPan";

/// The word of each of them.
#[cfg(test)]
#[rattlefmt::skip]
static PAGE_NAMES_WORDS: [u64; 1008] = [
    PageNamesTables::A, PageNamesTables::ABBR, PageNamesTables::ABS, PageNamesTables::ACCENT,
    PageNamesTables::ACCENT_HEIGHT, PageNamesTables::ACCENTUNDER, PageNamesTables::ACCEPT,
    PageNamesTables::ACCEPT_CHARSET, PageNamesTables::ACCESSKEY, PageNamesTables::ACCUMULATE,
    PageNamesTables::ACRONYM, PageNamesTables::ACTION, PageNamesTables::ACTIONTYPE,
    PageNamesTables::ACTIVE, PageNamesTables::ACTUATE, PageNamesTables::ADDITIVE,
    PageNamesTables::ADDRESS, PageNamesTables::ALIGN, PageNamesTables::ALIGNMENT_BASELINE,
    PageNamesTables::ALIGNMENTSCOPE, PageNamesTables::ALINK, PageNamesTables::ALLOWFULLSCREEN,
    PageNamesTables::ALPHABETIC, PageNamesTables::ALT, PageNamesTables::ALT_GLYPH,
    PageNamesTables::ALT_GLYPH_DEF, PageNamesTables::ALT_GLYPH_ITEM, PageNamesTables::ALTIMG,
    PageNamesTables::ALTTEXT, PageNamesTables::AMPLITUDE, PageNamesTables::AND,
    PageNamesTables::ANIMATE, PageNamesTables::ANIMATE_COLOR, PageNamesTables::ANIMATE_MOTION,
    PageNamesTables::ANIMATE_TRANSFORM, PageNamesTables::ANIMATION, PageNamesTables::ANNOTATION,
    PageNamesTables::ANNOTATION_XML, PageNamesTables::APPLET, PageNamesTables::APPLY,
    PageNamesTables::APPROX, PageNamesTables::ARABIC_FORM, PageNamesTables::ARCCOS,
    PageNamesTables::ARCCOSH, PageNamesTables::ARCCOT, PageNamesTables::ARCCOTH,
    PageNamesTables::ARCCSC, PageNamesTables::ARCCSCH, PageNamesTables::ARCHIVE,
    PageNamesTables::ARCROLE, PageNamesTables::ARCSEC, PageNamesTables::ARCSECH,
    PageNamesTables::ARCSIN, PageNamesTables::ARCSINH, PageNamesTables::ARCTAN,
    PageNamesTables::ARCTANH, PageNamesTables::AREA, PageNamesTables::ARG,
    PageNamesTables::ARIA_ACTIVEDESCENDANT, PageNamesTables::ARIA_ATOMIC,
    PageNamesTables::ARIA_AUTOCOMPLETE, PageNamesTables::ARIA_BUSY, PageNamesTables::ARIA_CHANNEL,
    PageNamesTables::ARIA_CHECKED, PageNamesTables::ARIA_CONTROLS, PageNamesTables::ARIA_DATATYPE,
    PageNamesTables::ARIA_DESCRIBEDBY, PageNamesTables::ARIA_DISABLED,
    PageNamesTables::ARIA_DROPEFFECT, PageNamesTables::ARIA_EXPANDED, PageNamesTables::ARIA_FLOWTO,
    PageNamesTables::ARIA_GRAB, PageNamesTables::ARIA_HASPOPUP, PageNamesTables::ARIA_HIDDEN,
    PageNamesTables::ARIA_INVALID, PageNamesTables::ARIA_LABELLEDBY, PageNamesTables::ARIA_LEVEL,
    PageNamesTables::ARIA_LIVE, PageNamesTables::ARIA_MULTILINE,
    PageNamesTables::ARIA_MULTISELECTABLE, PageNamesTables::ARIA_OWNS,
    PageNamesTables::ARIA_POSINSET, PageNamesTables::ARIA_PRESSED, PageNamesTables::ARIA_READONLY,
    PageNamesTables::ARIA_RELEVANT, PageNamesTables::ARIA_REQUIRED, PageNamesTables::ARIA_SECRET,
    PageNamesTables::ARIA_SELECTED, PageNamesTables::ARIA_SETSIZE, PageNamesTables::ARIA_SORT,
    PageNamesTables::ARIA_TEMPLATEID, PageNamesTables::ARIA_VALUEMAX,
    PageNamesTables::ARIA_VALUEMIN, PageNamesTables::ARIA_VALUENOW, PageNamesTables::ARTICLE,
    PageNamesTables::ASCENT, PageNamesTables::ASIDE, PageNamesTables::ASYNC,
    PageNamesTables::ATTRIBUTE_NAME, PageNamesTables::ATTRIBUTE_TYPE, PageNamesTables::AUDIO,
    PageNamesTables::AUTOCOMPLETE, PageNamesTables::AUTOFOCUS, PageNamesTables::AUTOPLAY,
    PageNamesTables::AUTOSUBMIT, PageNamesTables::AXIS, PageNamesTables::AZIMUTH,
    PageNamesTables::B, PageNamesTables::BACKGROUND, PageNamesTables::BASE,
    PageNamesTables::BASE_FREQUENCY, PageNamesTables::BASE_PROFILE, PageNamesTables::BASEFONT,
    PageNamesTables::BASELINE, PageNamesTables::BASELINE_SHIFT, PageNamesTables::BBOX,
    PageNamesTables::BDI, PageNamesTables::BDO, PageNamesTables::BEGIN, PageNamesTables::BEVELLED,
    PageNamesTables::BGCOLOR, PageNamesTables::BGSOUND, PageNamesTables::BIAS,
    PageNamesTables::BIG, PageNamesTables::BLINK, PageNamesTables::BLOCKQUOTE,
    PageNamesTables::BODY, PageNamesTables::BORDER, PageNamesTables::BR, PageNamesTables::BUTTON,
    PageNamesTables::BVAR, PageNamesTables::BY, PageNamesTables::CALC_MODE,
    PageNamesTables::CANVAS, PageNamesTables::CAP_HEIGHT, PageNamesTables::CAPTION,
    PageNamesTables::CARD, PageNamesTables::CARTESIANPRODUCT, PageNamesTables::CEILING,
    PageNamesTables::CELLPADDING, PageNamesTables::CELLSPACING, PageNamesTables::CENTER,
    PageNamesTables::CHAR, PageNamesTables::CHAROFF, PageNamesTables::CHARSET,
    PageNamesTables::CHECKED, PageNamesTables::CI, PageNamesTables::CIRCLE, PageNamesTables::CITE,
    PageNamesTables::CLASS, PageNamesTables::CLASSID, PageNamesTables::CLEAR,
    PageNamesTables::CLIP, PageNamesTables::CLIP_PATH, PageNamesTables::CLIP_RULE,
    PageNamesTables::CLIP_PATH_ELEMENT, PageNamesTables::CLIP_PATH_UNITS, PageNamesTables::CLOSE,
    PageNamesTables::CLOSURE, PageNamesTables::CN, PageNamesTables::CODE,
    PageNamesTables::CODEBASE, PageNamesTables::CODETYPE, PageNamesTables::CODOMAIN,
    PageNamesTables::COL, PageNamesTables::COLGROUP, PageNamesTables::COLOR,
    PageNamesTables::COLOR_INTERPOLATION, PageNamesTables::COLOR_INTERPOLATION_FILTERS,
    PageNamesTables::COLOR_PROFILE, PageNamesTables::COLOR_RENDERING, PageNamesTables::COLS,
    PageNamesTables::COLSPAN, PageNamesTables::COLUMNALIGN, PageNamesTables::COLUMNLINES,
    PageNamesTables::COLUMNSPACING, PageNamesTables::COLUMNSPAN, PageNamesTables::COLUMNWIDTH,
    PageNamesTables::COMPACT, PageNamesTables::COMPLEXES, PageNamesTables::COMPOSE,
    PageNamesTables::CONDITION, PageNamesTables::CONJUGATE, PageNamesTables::CONTENT,
    PageNamesTables::CONTENT_SCRIPT_TYPE, PageNamesTables::CONTENT_STYLE_TYPE,
    PageNamesTables::CONTENTEDITABLE, PageNamesTables::CONTEXTMENU,
    PageNamesTables::CONTROLLERCHANGE, PageNamesTables::CONTROLS, PageNamesTables::COORDS,
    PageNamesTables::COS, PageNamesTables::COSH, PageNamesTables::COT, PageNamesTables::COTH,
    PageNamesTables::CROSSORIGIN, PageNamesTables::CSC, PageNamesTables::CSCH,
    PageNamesTables::CSYMBOL, PageNamesTables::CURL, PageNamesTables::CURSOR, PageNamesTables::CX,
    PageNamesTables::CY, PageNamesTables::D, PageNamesTables::DATA, PageNamesTables::DATAFLD,
    PageNamesTables::DATAFORMATAS, PageNamesTables::DATALIST, PageNamesTables::DATASRC,
    PageNamesTables::DATATEMPLATE, PageNamesTables::DATETIME, PageNamesTables::DD,
    PageNamesTables::DECLARE, PageNamesTables::DECODING, PageNamesTables::DEFAULT,
    PageNamesTables::DEFER, PageNamesTables::DEFINITION_SRC, PageNamesTables::DEFINITION_URL,
    PageNamesTables::DEFS, PageNamesTables::DEGREE, PageNamesTables::DEL, PageNamesTables::DEPTH,
    PageNamesTables::DESC, PageNamesTables::DESCENT, PageNamesTables::DETAILS,
    PageNamesTables::DETERMINANT, PageNamesTables::DFN, PageNamesTables::DIALOG,
    PageNamesTables::DIFF, PageNamesTables::DIFFUSE_CONSTANT, PageNamesTables::DIR,
    PageNamesTables::DIRECTION, PageNamesTables::DIRNAME, PageNamesTables::DISABLED,
    PageNamesTables::DISCARD, PageNamesTables::DISPLAY, PageNamesTables::DISPLAYSTYLE,
    PageNamesTables::DIV, PageNamesTables::DIVERGENCE, PageNamesTables::DIVIDE,
    PageNamesTables::DIVISOR, PageNamesTables::DL, PageNamesTables::DOMAIN,
    PageNamesTables::DOMAINOFAPPLICATION, PageNamesTables::DOMINANT_BASELINE,
    PageNamesTables::DOWNLOAD, PageNamesTables::DRAGGABLE, PageNamesTables::DT,
    PageNamesTables::DUR, PageNamesTables::DX, PageNamesTables::DY, PageNamesTables::EDGE,
    PageNamesTables::EDGE_MODE, PageNamesTables::ELEVATION, PageNamesTables::ELLIPSE,
    PageNamesTables::EM, PageNamesTables::EMBED, PageNamesTables::EMPTYSET,
    PageNamesTables::ENABLE_BACKGROUND, PageNamesTables::ENCODING, PageNamesTables::ENCTYPE,
    PageNamesTables::END, PageNamesTables::EQ, PageNamesTables::EQUALCOLUMNS,
    PageNamesTables::EQUALROWS, PageNamesTables::EQUIVALENT, PageNamesTables::EULERGAMMA,
    PageNamesTables::EVENT, PageNamesTables::EXISTS, PageNamesTables::EXP,
    PageNamesTables::EXPONENT, PageNamesTables::EXPONENTIALE,
    PageNamesTables::EXTERNAL_RESOURCES_REQUIRED, PageNamesTables::FACE,
    PageNamesTables::FACTORIAL, PageNamesTables::FACTOROF, PageNamesTables::FALSE,
    PageNamesTables::FE_BLEND, PageNamesTables::FE_COLOR_MATRIX,
    PageNamesTables::FE_COMPONENT_TRANSFER, PageNamesTables::FE_COMPOSITE,
    PageNamesTables::FE_CONVOLVE_MATRIX, PageNamesTables::FE_DIFFUSE_LIGHTING,
    PageNamesTables::FE_DISPLACEMENT_MAP, PageNamesTables::FE_DISTANT_LIGHT,
    PageNamesTables::FE_DROP_SHADOW, PageNamesTables::FE_FLOOD, PageNamesTables::FE_FUNC_A,
    PageNamesTables::FE_FUNC_B, PageNamesTables::FE_FUNC_G, PageNamesTables::FE_FUNC_R,
    PageNamesTables::FE_GAUSSIAN_BLUR, PageNamesTables::FE_IMAGE, PageNamesTables::FE_MERGE,
    PageNamesTables::FE_MERGE_NODE, PageNamesTables::FE_MORPHOLOGY, PageNamesTables::FE_OFFSET,
    PageNamesTables::FE_POINT_LIGHT, PageNamesTables::FE_SPECULAR_LIGHTING,
    PageNamesTables::FE_SPOT_LIGHT, PageNamesTables::FE_TILE, PageNamesTables::FE_TURBULENCE,
    PageNamesTables::FENCE, PageNamesTables::FETCH, PageNamesTables::FIELDSET,
    PageNamesTables::FIGCAPTION, PageNamesTables::FIGURE, PageNamesTables::FILL,
    PageNamesTables::FILL_OPACITY, PageNamesTables::FILL_RULE, PageNamesTables::FILTER,
    PageNamesTables::FILTER_RES, PageNamesTables::FILTER_UNITS, PageNamesTables::FLOOD_COLOR,
    PageNamesTables::FLOOD_OPACITY, PageNamesTables::FLOOR, PageNamesTables::FN,
    PageNamesTables::FONT, PageNamesTables::FONT_FACE, PageNamesTables::FONT_FACE_FORMAT,
    PageNamesTables::FONT_FACE_NAME, PageNamesTables::FONT_FACE_SRC,
    PageNamesTables::FONT_FACE_URI, PageNamesTables::FONT_FAMILY, PageNamesTables::FONT_SIZE,
    PageNamesTables::FONT_SIZE_ADJUST, PageNamesTables::FONT_STRETCH, PageNamesTables::FONT_STYLE,
    PageNamesTables::FONT_VARIANT, PageNamesTables::FONT_WEIGHT, PageNamesTables::FONTFAMILY,
    PageNamesTables::FONTSIZE, PageNamesTables::FONTSTYLE, PageNamesTables::FONTWEIGHT,
    PageNamesTables::FOOTER, PageNamesTables::FOR, PageNamesTables::FORALL,
    PageNamesTables::FOREIGN_OBJECT, PageNamesTables::FORM, PageNamesTables::FORMACTION,
    PageNamesTables::FORMAT, PageNamesTables::FORMENCTYPE, PageNamesTables::FORMMETHOD,
    PageNamesTables::FORMNOVALIDATE, PageNamesTables::FORMTARGET, PageNamesTables::FRAME,
    PageNamesTables::FRAMEBORDER, PageNamesTables::FRAMESET, PageNamesTables::FRAMESPACING,
    PageNamesTables::FROM, PageNamesTables::FX, PageNamesTables::FY, PageNamesTables::G,
    PageNamesTables::G1, PageNamesTables::G2, PageNamesTables::GCD, PageNamesTables::GEQ,
    PageNamesTables::GLYPH, PageNamesTables::GLYPH_NAME,
    PageNamesTables::GLYPH_ORIENTATION_HORIZONTAL, PageNamesTables::GLYPH_ORIENTATION_VERTICAL,
    PageNamesTables::GLYPH_REF, PageNamesTables::GRAD, PageNamesTables::GRADIENT_TRANSFORM,
    PageNamesTables::GRADIENT_UNITS, PageNamesTables::GROUPALIGN, PageNamesTables::GT,
    PageNamesTables::H1, PageNamesTables::H2, PageNamesTables::H3, PageNamesTables::H4,
    PageNamesTables::H5, PageNamesTables::H6, PageNamesTables::HANDLER, PageNamesTables::HANGING,
    PageNamesTables::HEAD, PageNamesTables::HEADER, PageNamesTables::HEADERS,
    PageNamesTables::HEIGHT, PageNamesTables::HGROUP, PageNamesTables::HIDDEN,
    PageNamesTables::HIDEFOCUS, PageNamesTables::HIGH, PageNamesTables::HKERN,
    PageNamesTables::HORIZ_ADV_X, PageNamesTables::HORIZ_ORIGIN_X, PageNamesTables::HORIZ_ORIGIN_Y,
    PageNamesTables::HR, PageNamesTables::HREF, PageNamesTables::HREFLANG, PageNamesTables::HSPACE,
    PageNamesTables::HTML, PageNamesTables::HTTP_EQUIV, PageNamesTables::I, PageNamesTables::ICON,
    PageNamesTables::ID, PageNamesTables::IDENT, PageNamesTables::IDEOGRAPHIC,
    PageNamesTables::IFRAME, PageNamesTables::IMAGE, PageNamesTables::IMAGE_RENDERING,
    PageNamesTables::IMAGINARY, PageNamesTables::IMAGINARYI, PageNamesTables::IMG,
    PageNamesTables::IMPLIES, PageNamesTables::IN, PageNamesTables::IN2, PageNamesTables::INDEX,
    PageNamesTables::INFINITY, PageNamesTables::INPUT, PageNamesTables::INPUTMODE,
    PageNamesTables::INS, PageNamesTables::INT, PageNamesTables::INTEGERS,
    PageNamesTables::INTEGRITY, PageNamesTables::INTERCEPT, PageNamesTables::INTERSECT,
    PageNamesTables::INTERVAL, PageNamesTables::INVERSE, PageNamesTables::IRRELEVANT,
    PageNamesTables::ISINDEX, PageNamesTables::ISMAP, PageNamesTables::ITEMID,
    PageNamesTables::ITEMPROP, PageNamesTables::ITEMREF, PageNamesTables::ITEMSCOPE,
    PageNamesTables::ITEMTYPE, PageNamesTables::K, PageNamesTables::K1, PageNamesTables::K2,
    PageNamesTables::K3, PageNamesTables::K4, PageNamesTables::KBD, PageNamesTables::KERNEL_MATRIX,
    PageNamesTables::KERNEL_UNIT_LENGTH, PageNamesTables::KERNING, PageNamesTables::KEY_POINTS,
    PageNamesTables::KEY_SPLINES, PageNamesTables::KEY_TIMES, PageNamesTables::KEYGEN,
    PageNamesTables::KIND, PageNamesTables::LABEL, PageNamesTables::LAMBDA, PageNamesTables::LANG,
    PageNamesTables::LANGUAGE, PageNamesTables::LAPLACIAN, PageNamesTables::LARGEOP,
    PageNamesTables::LCM, PageNamesTables::LEGEND, PageNamesTables::LENGTH_ADJUST,
    PageNamesTables::LEQ, PageNamesTables::LETTER_SPACING, PageNamesTables::LI,
    PageNamesTables::LIGHTING_COLOR, PageNamesTables::LIMIT, PageNamesTables::LIMITING_CONE_ANGLE,
    PageNamesTables::LINE, PageNamesTables::LINE_HEIGHT, PageNamesTables::LINEAR_GRADIENT,
    PageNamesTables::LINEBREAK, PageNamesTables::LINETHICKNESS, PageNamesTables::LINK,
    PageNamesTables::LIST, PageNamesTables::LISTENER, PageNamesTables::LISTING,
    PageNamesTables::LN, PageNamesTables::LOCAL, PageNamesTables::LOG, PageNamesTables::LOGBASE,
    PageNamesTables::LONGDESC, PageNamesTables::LOOP, PageNamesTables::LOW,
    PageNamesTables::LOWLIMIT, PageNamesTables::LOWSRC, PageNamesTables::LQUOTE,
    PageNamesTables::LSPACE, PageNamesTables::LT, PageNamesTables::MACROS,
    PageNamesTables::MACTION, PageNamesTables::MAIN, PageNamesTables::MALIGNGROUP,
    PageNamesTables::MALIGNMARK, PageNamesTables::MANIFEST, PageNamesTables::MAP,
    PageNamesTables::MARGINHEIGHT, PageNamesTables::MARGINWIDTH, PageNamesTables::MARK,
    PageNamesTables::MARKER, PageNamesTables::MARKER_END, PageNamesTables::MARKER_MID,
    PageNamesTables::MARKER_START, PageNamesTables::MARKER_HEIGHT, PageNamesTables::MARKER_UNITS,
    PageNamesTables::MARKER_WIDTH, PageNamesTables::MARQUEE, PageNamesTables::MASK,
    PageNamesTables::MASK_CONTENT_UNITS, PageNamesTables::MASK_UNITS, PageNamesTables::MATH,
    PageNamesTables::MATHBACKGROUND, PageNamesTables::MATHCOLOR, PageNamesTables::MATHEMATICAL,
    PageNamesTables::MATHSIZE, PageNamesTables::MATHVARIANT, PageNamesTables::MATRIX,
    PageNamesTables::MATRIXROW, PageNamesTables::MAX, PageNamesTables::MAXLENGTH,
    PageNamesTables::MAXSIZE, PageNamesTables::MEAN, PageNamesTables::MEDIA,
    PageNamesTables::MEDIAN, PageNamesTables::MEDIUMMATHSPACE, PageNamesTables::MENCLOSE,
    PageNamesTables::MENU, PageNamesTables::MENUITEM, PageNamesTables::MERROR,
    PageNamesTables::META, PageNamesTables::METADATA, PageNamesTables::METER,
    PageNamesTables::METHOD, PageNamesTables::MFENCED, PageNamesTables::MFRAC,
    PageNamesTables::MGLYPH, PageNamesTables::MI, PageNamesTables::MIN, PageNamesTables::MINLENGTH,
    PageNamesTables::MINSIZE, PageNamesTables::MINUS, PageNamesTables::MISSING_GLYPH,
    PageNamesTables::MLABELEDTR, PageNamesTables::MMULTISCRIPTS, PageNamesTables::MN,
    PageNamesTables::MO, PageNamesTables::MODE, PageNamesTables::MOMENT,
    PageNamesTables::MOMENTABOUT, PageNamesTables::MOVABLELIMITS, PageNamesTables::MOVER,
    PageNamesTables::MOZBROWSER, PageNamesTables::MPADDED, PageNamesTables::MPATH,
    PageNamesTables::MPHANTOM, PageNamesTables::MPRESCRIPTS, PageNamesTables::MROOT,
    PageNamesTables::MROW, PageNamesTables::MS, PageNamesTables::MSPACE, PageNamesTables::MSQRT,
    PageNamesTables::MSTYLE, PageNamesTables::MSUB, PageNamesTables::MSUBSUP,
    PageNamesTables::MSUP, PageNamesTables::MTABLE, PageNamesTables::MTD, PageNamesTables::MTEXT,
    PageNamesTables::MTR, PageNamesTables::MULTICOL, PageNamesTables::MULTIPLE,
    PageNamesTables::MUNDER, PageNamesTables::MUNDEROVER, PageNamesTables::MUTED,
    PageNamesTables::NAME, PageNamesTables::NARGS, PageNamesTables::NATURALNUMBERS,
    PageNamesTables::NAV, PageNamesTables::NEQ, PageNamesTables::NEST, PageNamesTables::NEXTID,
    PageNamesTables::NOBR, PageNamesTables::NOEMBED, PageNamesTables::NOFRAMES,
    PageNamesTables::NOHREF, PageNamesTables::NOMODULE, PageNamesTables::NONCE,
    PageNamesTables::NONE, PageNamesTables::NORESIZE, PageNamesTables::NOSCRIPT,
    PageNamesTables::NOSHADE, PageNamesTables::NOT, PageNamesTables::NOTANUMBER,
    PageNamesTables::NOTATION, PageNamesTables::NOTIN, PageNamesTables::NOTPRSUBSET,
    PageNamesTables::NOTSUBSET, PageNamesTables::NOVALIDATE, PageNamesTables::NOWRAP,
    PageNamesTables::NUM_OCTAVES, PageNamesTables::OBJECT, PageNamesTables::OCCURRENCE,
    PageNamesTables::OFFSET, PageNamesTables::OL, PageNamesTables::ONABORT,
    PageNamesTables::ONACTIVATE, PageNamesTables::ONAFTERPRINT, PageNamesTables::ONAFTERUPDATE,
    PageNamesTables::ONBEFORDEACTIVATE, PageNamesTables::ONBEFOREACTIVATE,
    PageNamesTables::ONBEFORECOPY, PageNamesTables::ONBEFORECUT,
    PageNamesTables::ONBEFOREEDITFOCUS, PageNamesTables::ONBEFOREPASTE,
    PageNamesTables::ONBEFOREPRINT, PageNamesTables::ONBEFOREUNLOAD,
    PageNamesTables::ONBEFOREUPDATE, PageNamesTables::ONBEGIN, PageNamesTables::ONBLUR,
    PageNamesTables::ONBOUNCE, PageNamesTables::ONCELLCHANGE, PageNamesTables::ONCHANGE,
    PageNamesTables::ONCLICK, PageNamesTables::ONCONTEXTMENU, PageNamesTables::ONCONTROLSELECT,
    PageNamesTables::ONCOPY, PageNamesTables::ONCUT, PageNamesTables::ONDATAAVAILABLE,
    PageNamesTables::ONDATASETCHANGED, PageNamesTables::ONDATASETCOMPLETE,
    PageNamesTables::ONDBLCLICK, PageNamesTables::ONDEACTIVATE, PageNamesTables::ONDRAG,
    PageNamesTables::ONDRAGDROP, PageNamesTables::ONDRAGEND, PageNamesTables::ONDRAGENTER,
    PageNamesTables::ONDRAGLEAVE, PageNamesTables::ONDRAGOVER, PageNamesTables::ONDRAGSTART,
    PageNamesTables::ONDROP, PageNamesTables::ONEND, PageNamesTables::ONERROR,
    PageNamesTables::ONERRORUPDATE, PageNamesTables::ONFILTERCHANGE, PageNamesTables::ONFINISH,
    PageNamesTables::ONFOCUS, PageNamesTables::ONFOCUSIN, PageNamesTables::ONFOCUSOUT,
    PageNamesTables::ONFORMCHANGE, PageNamesTables::ONFORMINPUT, PageNamesTables::ONHASHCHANGE,
    PageNamesTables::ONHELP, PageNamesTables::ONINPUT, PageNamesTables::ONINVALID,
    PageNamesTables::ONKEYDOWN, PageNamesTables::ONKEYPRESS, PageNamesTables::ONKEYUP,
    PageNamesTables::ONLANGUAGECHANGE, PageNamesTables::ONLOAD, PageNamesTables::ONLOSECAPTURE,
    PageNamesTables::ONMESSAGE, PageNamesTables::ONMOUSEDOWN, PageNamesTables::ONMOUSEENTER,
    PageNamesTables::ONMOUSELEAVE, PageNamesTables::ONMOUSEMOVE, PageNamesTables::ONMOUSEOUT,
    PageNamesTables::ONMOUSEOVER, PageNamesTables::ONMOUSEUP, PageNamesTables::ONMOUSEWHEEL,
    PageNamesTables::ONMOVE, PageNamesTables::ONMOVEEND, PageNamesTables::ONMOVESTART,
    PageNamesTables::ONOFFLINE, PageNamesTables::ONONLINE, PageNamesTables::ONPAGEHIDE,
    PageNamesTables::ONPAGESHOW, PageNamesTables::ONPASTE, PageNamesTables::ONPOPSTATE,
    PageNamesTables::ONPROPERTYCHANGE, PageNamesTables::ONREADYSTATECHANGE,
    PageNamesTables::ONREPEAT, PageNamesTables::ONRESET, PageNamesTables::ONRESIZE,
    PageNamesTables::ONROWENTER, PageNamesTables::ONROWEXIT, PageNamesTables::ONROWSDELETE,
    PageNamesTables::ONROWSINSERTED, PageNamesTables::ONSCROLL, PageNamesTables::ONSELECT,
    PageNamesTables::ONSELECTSTART, PageNamesTables::ONSTART, PageNamesTables::ONSTOP,
    PageNamesTables::ONSTORAGE, PageNamesTables::ONSUBMIT, PageNamesTables::ONUNLOAD,
    PageNamesTables::ONZOOM, PageNamesTables::OPACITY, PageNamesTables::OPEN,
    PageNamesTables::OPERATOR, PageNamesTables::OPTGROUP, PageNamesTables::OPTIMUM,
    PageNamesTables::OPTION, PageNamesTables::OR, PageNamesTables::ORDER, PageNamesTables::ORIENT,
    PageNamesTables::ORIENTATION, PageNamesTables::ORIGIN, PageNamesTables::OTHER,
    PageNamesTables::OTHERWISE, PageNamesTables::OUTERPRODUCT, PageNamesTables::OUTPUT,
    PageNamesTables::OVERFLOW, PageNamesTables::OVERLINE_POSITION,
    PageNamesTables::OVERLINE_THICKNESS, PageNamesTables::P, PageNamesTables::PANOSE_1,
    PageNamesTables::PARAM, PageNamesTables::PARSE, PageNamesTables::PARTIALDIFF,
    PageNamesTables::PATH, PageNamesTables::PATH_LENGTH, PageNamesTables::PATTERN,
    PageNamesTables::PATTERN_CONTENT_UNITS, PageNamesTables::PATTERN_TRANSFORM,
    PageNamesTables::PATTERN_UNITS, PageNamesTables::PI, PageNamesTables::PICTURE,
    PageNamesTables::PIECE, PageNamesTables::PIECEWISE, PageNamesTables::PING,
    PageNamesTables::PLACEHOLDER, PageNamesTables::PLAINTEXT, PageNamesTables::PLUS,
    PageNamesTables::POINTER_EVENTS, PageNamesTables::POINTS, PageNamesTables::POINTS_AT_X,
    PageNamesTables::POINTS_AT_Y, PageNamesTables::POINTS_AT_Z, PageNamesTables::POLYGON,
    PageNamesTables::POLYLINE, PageNamesTables::POSTER, PageNamesTables::POWER,
    PageNamesTables::PRE, PageNamesTables::PREFETCH, PageNamesTables::PRELOAD,
    PageNamesTables::PRESERVE_ALPHA, PageNamesTables::PRESERVE_ASPECT_RATIO,
    PageNamesTables::PRIMES, PageNamesTables::PRIMITIVE_UNITS, PageNamesTables::PRODUCT,
    PageNamesTables::PROFILE, PageNamesTables::PROGRESS, PageNamesTables::PROMPT,
    PageNamesTables::PROPERTY, PageNamesTables::PRSUBSET, PageNamesTables::Q,
    PageNamesTables::QUOTIENT, PageNamesTables::R, PageNamesTables::RADIAL_GRADIENT,
    PageNamesTables::RADIOGROUP, PageNamesTables::RADIUS, PageNamesTables::RATIONALS,
    PageNamesTables::RB, PageNamesTables::READONLY, PageNamesTables::REAL, PageNamesTables::REALS,
    PageNamesTables::RECT, PageNamesTables::REF_X, PageNamesTables::REF_Y,
    PageNamesTables::REFERRERPOLICY, PageNamesTables::REL, PageNamesTables::RELN,
    PageNamesTables::REM, PageNamesTables::RENDERING_INTENT, PageNamesTables::REPEAT,
    PageNamesTables::REPEAT_MAX, PageNamesTables::REPEAT_MIN, PageNamesTables::REPEAT_START,
    PageNamesTables::REPEAT_TEMPLATE, PageNamesTables::REPEAT_COUNT, PageNamesTables::REPEAT_DUR,
    PageNamesTables::REPLACE, PageNamesTables::REQUIRED, PageNamesTables::REQUIRED_EXTENSIONS,
    PageNamesTables::REQUIRED_FEATURES, PageNamesTables::RESTART, PageNamesTables::RESULT,
    PageNamesTables::REV, PageNamesTables::REVERSED, PageNamesTables::ROLE, PageNamesTables::ROOT,
    PageNamesTables::ROTATE, PageNamesTables::ROWALIGN, PageNamesTables::ROWLINES,
    PageNamesTables::ROWS, PageNamesTables::ROWSPACING, PageNamesTables::ROWSPAN,
    PageNamesTables::RP, PageNamesTables::RQUOTE, PageNamesTables::RSPACE, PageNamesTables::RT,
    PageNamesTables::RTC, PageNamesTables::RUBY, PageNamesTables::RULE, PageNamesTables::RULES,
    PageNamesTables::RX, PageNamesTables::RY, PageNamesTables::S, PageNamesTables::SAMP,
    PageNamesTables::SANDBOX, PageNamesTables::SCALARPRODUCT, PageNamesTables::SCALE,
    PageNamesTables::SCHEME, PageNamesTables::SCOPE, PageNamesTables::SCOPED,
    PageNamesTables::SCRIPT, PageNamesTables::SCRIPTLEVEL, PageNamesTables::SCRIPTMINSIZE,
    PageNamesTables::SCRIPTSIZEMULTIPLIER, PageNamesTables::SCROLLDELAY,
    PageNamesTables::SCROLLING, PageNamesTables::SDEV, PageNamesTables::SEAMLESS,
    PageNamesTables::SEC, PageNamesTables::SECH, PageNamesTables::SECTION, PageNamesTables::SEED,
    PageNamesTables::SELECT, PageNamesTables::SELECTED, PageNamesTables::SELECTION,
    PageNamesTables::SELECTOR, PageNamesTables::SEMANTICS, PageNamesTables::SEP,
    PageNamesTables::SEPARATOR, PageNamesTables::SEPARATORS, PageNamesTables::SET,
    PageNamesTables::SETDIFF, PageNamesTables::SHAPE, PageNamesTables::SHAPE_RENDERING,
    PageNamesTables::SHOW, PageNamesTables::SIN, PageNamesTables::SINH, PageNamesTables::SIZE,
    PageNamesTables::SIZES, PageNamesTables::SLOPE, PageNamesTables::SLOT, PageNamesTables::SMALL,
    PageNamesTables::SOLIDCOLOR, PageNamesTables::SOURCE, PageNamesTables::SPACE,
    PageNamesTables::SPACER, PageNamesTables::SPACING, PageNamesTables::SPAN,
    PageNamesTables::SPECIFICATION, PageNamesTables::SPECULAR_CONSTANT,
    PageNamesTables::SPECULAR_EXPONENT, PageNamesTables::SPEED, PageNamesTables::SPELLCHECK,
    PageNamesTables::SPREAD_METHOD, PageNamesTables::SRC, PageNamesTables::SRCDOC,
    PageNamesTables::SRCLANG, PageNamesTables::SRCSET, PageNamesTables::STANDBY,
    PageNamesTables::START, PageNamesTables::START_OFFSET, PageNamesTables::STATECHANGE,
    PageNamesTables::STD_DEVIATION, PageNamesTables::STEMH, PageNamesTables::STEMV,
    PageNamesTables::STEP, PageNamesTables::STITCH_TILES, PageNamesTables::STOP,
    PageNamesTables::STOP_COLOR, PageNamesTables::STOP_OPACITY, PageNamesTables::STRETCHY,
    PageNamesTables::STRIKE, PageNamesTables::STRIKETHROUGH_POSITION,
    PageNamesTables::STRIKETHROUGH_THICKNESS, PageNamesTables::STRING, PageNamesTables::STROKE,
    PageNamesTables::STROKE_DASHARRAY, PageNamesTables::STROKE_DASHOFFSET,
    PageNamesTables::STROKE_LINECAP, PageNamesTables::STROKE_LINEJOIN,
    PageNamesTables::STROKE_MITERLIMIT, PageNamesTables::STROKE_OPACITY,
    PageNamesTables::STROKE_WIDTH, PageNamesTables::STRONG, PageNamesTables::STYLE,
    PageNamesTables::SUB, PageNamesTables::SUBSCRIPTSHIFT, PageNamesTables::SUBSET,
    PageNamesTables::SUM, PageNamesTables::SUMMARY, PageNamesTables::SUP,
    PageNamesTables::SUPERSCRIPTSHIFT, PageNamesTables::SURFACE_SCALE, PageNamesTables::SVG,
    PageNamesTables::SWITCH, PageNamesTables::SYMBOL, PageNamesTables::SYMMETRIC,
    PageNamesTables::SYSTEM_LANGUAGE, PageNamesTables::TABINDEX, PageNamesTables::TABLE,
    PageNamesTables::TABLE_VALUES, PageNamesTables::TAN, PageNamesTables::TANH,
    PageNamesTables::TARGET, PageNamesTables::TARGET_X, PageNamesTables::TARGET_Y,
    PageNamesTables::TBODY, PageNamesTables::TBREAK, PageNamesTables::TD,
    PageNamesTables::TEMPLATE, PageNamesTables::TENDSTO, PageNamesTables::TEXT,
    PageNamesTables::TEXT_ANCHOR, PageNamesTables::TEXT_DECORATION,
    PageNamesTables::TEXT_RENDERING, PageNamesTables::TEXT_LENGTH, PageNamesTables::TEXT_PATH,
    PageNamesTables::TEXTAREA, PageNamesTables::TFOOT, PageNamesTables::TH, PageNamesTables::THEAD,
    PageNamesTables::THICKMATHSPACE, PageNamesTables::THINMATHSPACE, PageNamesTables::TIME,
    PageNamesTables::TIMES, PageNamesTables::TITLE, PageNamesTables::TO, PageNamesTables::TOGGLE,
    PageNamesTables::TR, PageNamesTables::TRACK, PageNamesTables::TRANSFORM,
    PageNamesTables::TRANSLATE, PageNamesTables::TRANSPOSE, PageNamesTables::TREF,
    PageNamesTables::TRUE, PageNamesTables::TSPAN, PageNamesTables::TT, PageNamesTables::TYPE,
    PageNamesTables::U, PageNamesTables::U1, PageNamesTables::U2, PageNamesTables::UL,
    PageNamesTables::UNDERLINE_POSITION, PageNamesTables::UNDERLINE_THICKNESS,
    PageNamesTables::UNICODE, PageNamesTables::UNICODE_BIDI, PageNamesTables::UNICODE_RANGE,
    PageNamesTables::UNION, PageNamesTables::UNITS_PER_EM, PageNamesTables::UNSELECTABLE,
    PageNamesTables::UPLIMIT, PageNamesTables::USE, PageNamesTables::USEMAP,
    PageNamesTables::V_ALPHABETIC, PageNamesTables::V_HANGING, PageNamesTables::V_IDEOGRAPHIC,
    PageNamesTables::V_MATHEMATICAL, PageNamesTables::VALIGN, PageNamesTables::VALUE,
    PageNamesTables::VALUES, PageNamesTables::VALUETYPE, PageNamesTables::VAR,
    PageNamesTables::VARIANCE, PageNamesTables::VECTOR, PageNamesTables::VECTORPRODUCT,
    PageNamesTables::VERSION, PageNamesTables::VERT_ADV_Y, PageNamesTables::VERT_ORIGIN_X,
    PageNamesTables::VERT_ORIGIN_Y, PageNamesTables::VERYTHICKMATHSPACE,
    PageNamesTables::VERYTHINMATHSPACE, PageNamesTables::VERYVERYTHICKMATHSPACE,
    PageNamesTables::VERYVERYTHINMATHSPACE, PageNamesTables::VIDEO, PageNamesTables::VIEW,
    PageNamesTables::VIEW_BOX, PageNamesTables::VIEW_TARGET, PageNamesTables::VISIBILITY,
    PageNamesTables::VKERN, PageNamesTables::VLINK, PageNamesTables::VSPACE, PageNamesTables::WBR,
    PageNamesTables::WHEN, PageNamesTables::WIDTH, PageNamesTables::WIDTHS,
    PageNamesTables::WORD_SPACING, PageNamesTables::WRAP, PageNamesTables::WRITING_MODE,
    PageNamesTables::X, PageNamesTables::X_HEIGHT, PageNamesTables::X1, PageNamesTables::X2,
    PageNamesTables::X_CHANNEL_SELECTOR, PageNamesTables::XLINK, PageNamesTables::XLINK_ACTUATE,
    PageNamesTables::XLINK_ARCROLE, PageNamesTables::XLINK_HREF, PageNamesTables::XLINK_ROLE,
    PageNamesTables::XLINK_SHOW, PageNamesTables::XLINK_TITLE, PageNamesTables::XLINK_TYPE,
    PageNamesTables::XML_BASE, PageNamesTables::XML_LANG, PageNamesTables::XML_SPACE,
    PageNamesTables::XMLNS, PageNamesTables::XMLNS_XLINK, PageNamesTables::XMP,
    PageNamesTables::XOR, PageNamesTables::XREF, PageNamesTables::Y, PageNamesTables::Y1,
    PageNamesTables::Y2, PageNamesTables::Y_CHANNEL_SELECTOR, PageNamesTables::Z,
    PageNamesTables::ZOOM_AND_PAN,
];

/// The word of a static text.
#[cfg(test)]
fn static_word<S: StaticTables>(text: &str) -> Option<u64> {
    Some(Atom::<S>::try_static(text)?.unsafe_data())
}

/// The word of a text that is inline or static.
#[cfg(test)]
fn word_of<S: StaticTables>(text: &str) -> Option<u64> {
    match pack_inline_word(text) {
        Some(word) => Some(word),
        None => static_word::<S>(text),
    }
}

/// Each text is at its place, and each name is found and has its word.
#[test]
fn names_are_found(rt: HostRuntime) {
    assert!(rt; are_perfect::<PageNames>());
    for (text, word) in PAGE_NAMES_LIST.split('\n').zip(&PAGE_NAMES_WORDS) {
        assert!(rt; word_of::<PageNames>(text) == Some(*word), "of {text}");
    }
}
